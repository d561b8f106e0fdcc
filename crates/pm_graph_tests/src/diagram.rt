//! A small policy, change by change, with answers worked out by hand.

ghost use Rattle.pm_model.specs.Formed.{IsLive};

use crate::elements::{live_in, named};
use pm_diagram::Diagram;
use pm_elements::ElementsError;
use pm_model::{ElementId, Kind, Reach};
use std::alloc::Global;
use std::process::Abort;
use std::test::Fail;

#[derive(Clone, Copy)]
pub(crate) enum Call {
    Class,
    User,
    Ua,
    Object,
    Oa,
    Assign,
    Deassign,
    Remove,
}

fn live_named(rt: &impl Abort, diagram: &Diagram, text: &str) -> ElementId
    ensures { IsLive diagram.now.elements result }
{
    live_in(rt, diagram.elements(), text)
}

fn create(
    rt: &impl Abort,
    diagram: &mut Diagram,
    kind: Kind,
    text: &str,
    into: &str,
) -> Result<u64, ElementsError> {
    let container = live_named(rt, diagram, into);
    diagram.create(kind, named(rt, text), Some(container))?;
    Ok(0)
}

fn create_class(rt: &impl Abort, diagram: &mut Diagram, text: &str) -> Result<u64, ElementsError> {
    diagram.create(Kind::Pc, named(rt, text), None)?;
    Ok(0)
}

fn assign(
    rt: &impl Abort,
    diagram: &mut Diagram,
    from: &str,
    to: &str,
) -> Result<u64, ElementsError> {
    let x = live_named(rt, diagram, from);
    let y = live_named(rt, diagram, to);
    diagram.assign(x, y)
}

fn deassign(
    rt: &impl Abort,
    diagram: &mut Diagram,
    from: &str,
    to: &str,
) -> Result<u64, ElementsError> {
    let x = live_named(rt, diagram, from);
    let y = live_named(rt, diagram, to);
    diagram.deassign(x, y)
}

fn remove(rt: &impl Abort, diagram: &mut Diagram, text: &str) -> Result<u64, ElementsError> {
    let id = live_named(rt, diagram, text);
    diagram.remove(id)?;
    Ok(0)
}

// Answers how many rows an assignment wrote that was made or taken away, and 0 for the others.
fn apply(
    rt: &impl Abort,
    diagram: &mut Diagram,
    call: Call,
    first: &str,
    second: &str,
) -> Result<u64, ElementsError> {
    match call {
        Call::Class => create_class(rt, diagram, first),
        Call::User => create(rt, diagram, Kind::User, first, second),
        Call::Ua => create(rt, diagram, Kind::Ua, first, second),
        Call::Object => create(rt, diagram, Kind::Object, first, second),
        Call::Oa => create(rt, diagram, Kind::Oa, first, second),
        Call::Assign => assign(rt, diagram, first, second),
        Call::Deassign => deassign(rt, diagram, first, second),
        Call::Remove => remove(rt, diagram, first),
    }
}

fn word(answer: Result<(), ElementsError>) -> &'static str {
    match answer {
        Ok(()) => "ok",
        Err(ElementsError::BadKinds) => "bad kinds",
        Err(ElementsError::NameTaken) => "name taken",
        Err(ElementsError::Already) => "already",
        Err(ElementsError::Absent) => "absent",
        Err(ElementsError::Cycle { .. }) => "cycle",
        Err(ElementsError::Occupied) => "occupied",
        Err(ElementsError::LastContainer) => "last container",
        Err(ElementsError::Full(_)) => "full",
        Err(ElementsError::Memory) => "memory",
    }
}

fn is_in(rt: &impl Abort, diagram: &Diagram, first: &str, second: &str) -> bool {
    let x = live_named(rt, diagram, first);
    let y = live_named(rt, diagram, second);
    let mut reach = diagram.reach();
    reach.contains(x, y)
}

pub(crate) type Row = (Call, &'static str, &'static str);

/// Makes these changes, each of which is accepted.
pub(crate) fn made(
    rt: &impl Abort,
    diagram: &mut Diagram,
    rows: &[Row],
) -> Result<(), ElementsError> {
    for (call, first, second) in rows {
        apply(rt, diagram, *call, first, second)?;
    }
    Ok(())
}

// The class `files` 3; `staff` 4 and `docs` 5 in it; the users `ann` 6 and `bob` 7; the object `memo` 8.
static POLICY: &[Row] = &[
    (Call::Class, "files", ""),
    (Call::Ua, "staff", "files"),
    (Call::Oa, "docs", "files"),
    (Call::User, "ann", "staff"),
    (Call::User, "bob", "staff"),
    (Call::Object, "memo", "docs"),
];

pub(crate) fn policy(rt: &impl Abort, alloc: Global) -> Result<Diagram, ElementsError> {
    let mut diagram = Diagram::opening(alloc)?;
    made(rt, &mut diagram, POLICY)?;
    Ok(diagram)
}

// What a change is answered, and how many rows an assignment wrote.
fn tried(rt: &impl Abort, diagram: &mut Diagram, row: &Row) -> (&'static str, u64) {
    let (call, first, second) = row;
    match apply(rt, diagram, *call, first, second) {
        Ok(written) => ("ok", written),
        Err(error) => (word(Err(error)), 0),
    }
}

static CHANGES: &[(Row, &str, u64)] = &[
    ((Call::Class, "files", ""), "name taken", 0),
    ((Call::User, "eve", "docs"), "bad kinds", 0),
    ((Call::Ua, "ann", "files"), "name taken", 0),
    ((Call::Ua, "team", "files"), "ok", 0),
    ((Call::Assign, "staff", "team"), "ok", 3),
    ((Call::Assign, "staff", "team"), "already", 0),
    ((Call::Assign, "team", "staff"), "cycle", 0),
    ((Call::Deassign, "staff", "files"), "ok", 3),
    ((Call::Deassign, "staff", "files"), "absent", 0),
    ((Call::Deassign, "staff", "team"), "last container", 0),
    ((Call::Remove, "staff", ""), "occupied", 0),
    ((Call::Remove, "memo", ""), "ok", 0),
];

fn check_changes(rt: &impl Abort, diagram: &mut Diagram) {
    for (row, want, written) in CHANGES {
        let (_, first, second) = row;
        let told = tried(rt, diagram, row);
        assert_eq!(rt; told, (*want, *written), "{first} {second}");
    }
}

// An assignment made or taken away writes the rows of all that is contained in the element assigned.
#[test]
fn changes_and_rows_written(rt: HostRuntime) -> Result<(), Fail> {
    let mut diagram = policy(&rt, rt.alloc())?;
    check_changes(&rt, &mut diagram);
    assert!(rt; is_in(&rt, &diagram, "ann", "files"));
    Ok(())
}

// Whether x is contained in y after a change.
fn is_in_after(
    rt: &impl Abort,
    diagram: &mut Diagram,
    row: &Row,
    x: &str,
    y: &str,
) -> Result<bool, ElementsError> {
    let (call, first, second) = row;
    apply(rt, diagram, *call, first, second)?;
    Ok(is_in(rt, diagram, x, y))
}

/// A change, and whether the first is contained in the second then.
static CONTAINED: &[(Row, &str, &str, bool)] = &[
    ((Call::Ua, "team", "staff"), "team", "files", true),
    ((Call::Assign, "ann", "team"), "ann", "team", true),
    ((Call::Assign, "bob", "team"), "team", "bob", false),
    ((Call::Deassign, "ann", "staff"), "ann", "staff", true),
    ((Call::Deassign, "bob", "team"), "bob", "team", false),
    ((Call::Oa, "drafts", "docs"), "memo", "drafts", false),
    ((Call::Remove, "drafts", ""), "memo", "files", true),
    ((Call::Oa, "notes", "files"), "notes", "docs", false),
];

fn check_contained(rt: &impl Abort, diagram: &mut Diagram) -> Result<(), ElementsError> {
    for (row, x, y, want) in CONTAINED {
        let told = is_in_after(rt, diagram, row, x, y)?;
        assert_eq!(rt; told, *want, "{x} in {y}");
    }
    Ok(())
}

#[test]
fn containment_after_each_change(rt: HostRuntime) -> Result<(), Fail> {
    let mut diagram = policy(&rt, rt.alloc())?;
    check_contained(&rt, &mut diagram)?;
    Ok(())
}

fn check_refused(rt: &impl Abort, answer: Result<(), ElementsError>, want: &str) {
    assert_eq!(rt; word(answer), want);
}

// What would be refused: a user in `docs`, `docs` in itself, `memo` without a container, no `docs`.
fn check_refusals(rt: &impl Abort, diagram: &Diagram) {
    let docs = live_named(rt, diagram, "docs");
    let memo = live_named(rt, diagram, "memo");
    let user = diagram.check_create(Kind::User, named(rt, "eve"), Some(docs));
    check_refused(rt, user, "bad kinds");
    check_refused(rt, diagram.check_assign(docs, docs), "cycle");
    check_refused(rt, diagram.check_deassign(memo, docs), "last container");
    check_refused(rt, diagram.check_remove(docs), "occupied");
}

#[test]
fn what_would_be_refused(rt: HostRuntime) -> Result<(), Fail> {
    let diagram = policy(&rt, rt.alloc())?;
    check_refusals(&rt, &diagram);
    Ok(())
}

static MOVED: &[Row] = &[
    (Call::Ua, "team", "files"),
    (Call::Assign, "ann", "team"),
    (Call::Deassign, "ann", "staff"),
];

// A copy in which `ann` is in `team` and no more in `staff`.
fn moved_copy(rt: &impl Abort, diagram: &Diagram) -> Result<Diagram, ElementsError> {
    let mut other = diagram.copy()?;
    made(rt, &mut other, MOVED)?;
    Ok(other)
}

// `team` is in the copy alone.
fn check_team(rt: &impl Abort, diagram: &Diagram, copy: &Diagram) {
    let team = named(rt, "team");
    assert!(rt; diagram.elements().find(team).is_none());
    assert!(rt; copy.elements().find(team).is_some());
}

// `ann` has moved in the copy alone.
fn check_moved(rt: &impl Abort, diagram: &Diagram, copy: &Diagram) {
    assert!(rt; is_in(rt, diagram, "ann", "staff"));
    assert!(rt; !is_in(rt, copy, "ann", "staff"));
}

#[test]
fn a_copy_goes_its_own_way(rt: HostRuntime) -> Result<(), Fail> {
    let mut diagram = policy(&rt, rt.alloc())?;
    diagram.share()?;
    let other = moved_copy(&rt, &diagram)?;
    check_team(&rt, &diagram, &other);
    check_moved(&rt, &diagram, &other);
    Ok(())
}
