//! Questions to the table of elements of a small policy, with answers worked out by hand.

ghost use Rattle.std.specs.Prelude.{◌≡◌, IfOk};
ghost use Rattle.pm_model.specs.Containment.{contained};
ghost use Rattle.pm_model.specs.Formed.{IsLive};

use crate::diagram::{Call, Row, made, policy};
use pm_elements::Elements;
use pm_model::{ElementId, Kind, Memory, Name, Parents, Reach};
use std::process::Abort;
use std::test::Fail;

pub(crate) fn named(rt: &impl Abort, text: &str) -> Name {
    Name::new(text.as_bytes()).expect(rt, "a name")
}

pub(crate) fn live_in(rt: &impl Abort, table: &Elements, text: &str) -> ElementId
    ensures { IsLive table.now.elements result }
{
    let id = table.find(named(rt, text)).expect(rt, "a live element");
    assert!(rt; table.live(id));
    id
}

// Whether x is contained in y, by a search over the table.
fn is_in(table: &Elements, x: ElementId, y: ElementId) -> Result<bool, Memory>
    requires x_live { IsLive table.now.elements x }
    requires y_live { IsLive table.now.elements y }
    ensures { IfOk result (λ yes. yes ≡ contained table.now.assigned x y) }
{
    let mut paths = table.paths()?;
    Ok(paths.contains(x, y))
}

// 8 was the number of `memo`, and is given to `leads`.
static RENUMBERED: &[Row] = &[
    (Call::Remove, "memo", ""),
    (Call::Ua, "leads", "staff"),
    (Call::Assign, "leads", "files"),
];

fn check_sizes(rt: &impl Abort, table: &Elements) {
    assert!(rt; table.len() == 9 && table.unused() == ElementId(9));
    assert!(rt; table.next(4) == Some(ElementId(4)) && table.next(9).is_none());
}

fn check_numbers(rt: &impl Abort, table: &Elements) {
    let numbers = table.numbers().expect(rt, "memory");
    let users = table.users().expect(rt, "memory");
    assert!(rt; numbers.len() == 9 && *numbers.at(8) == ElementId(8));
    assert!(rt; users.len() == 3 && *users.at(0) == ElementId(2) && *users.at(2) == ElementId(7));
}

/// Each live element, and how many containers it has.
static CONTAINERS: &[(&str, usize)] = &[
    ("pm", 0),
    ("pm_admins", 1),
    ("root", 1),
    ("files", 0),
    ("staff", 1),
    ("docs", 1),
    ("ann", 1),
    ("bob", 1),
    ("leads", 2),
];

fn check_containers(rt: &impl Abort, table: &Elements) {
    for (text, containers) in CONTAINERS {
        let id = live_in(rt, table, text);
        assert_eq!(rt; table.count(id), *containers, "of {text}");
    }
}

fn check_leads(rt: &impl Abort, table: &Elements) {
    let leads = live_in(rt, table, "leads");
    assert!(rt; leads == ElementId(8) && table.kind(leads) == Kind::Ua);
    assert!(rt; table.name(leads) == named(rt, "leads"));
    assert!(rt; !table.has_children(leads));
}

fn check_paths(rt: &impl Abort, table: &Elements) {
    let leads = live_in(rt, table, "leads");
    let docs = live_in(rt, table, "docs");
    let staff = live_in(rt, table, "staff");
    assert!(rt; is_in(table, leads, staff).expect(rt, "memory"));
    assert!(rt; !is_in(table, leads, docs).expect(rt, "memory"));
}

#[test]
fn questions_once_a_number_was_given_again(rt: HostRuntime) -> Result<(), Fail> {
    let mut diagram = policy(&rt, rt.alloc())?;
    made(&rt, &mut diagram, RENUMBERED)?;
    let table = diagram.elements();
    check_sizes(&rt, table);
    check_numbers(&rt, table);
    check_containers(&rt, table);
    check_leads(&rt, table);
    check_paths(&rt, table);
    Ok(())
}
