use super::*;

/// An obligation's name, the operation that it waits for, and the target that it gives.
type Row = (&'static str, &'static str, Option<u32>);

const ROWS: [Row; 4] = [
    ("a", "read", Some(5)),
    ("b", "assign", None),
    ("c", "read", Some(64)),
    ("d", "read", Some(63)),
];

fn item_of(alloc: Global, name: Name, on: Name) -> Result<Obligation, Fail> {
    let mut actions = ActionList::new(alloc);
    let act = Act::Delete {
        name: Term::EventTarget,
    };
    actions.push(unguarded(alloc, act))?;
    Ok(Obligation {
        name,
        author: ElementId(2),
        pattern: Pattern {
            on,
            user: None,
            target: None,
        },
        response: Response::new(actions).map_err(|_| "a response")?,
    })
}

fn list_of(rt: &(impl Abort + Alloc<A = Global>), rows: &[Row]) -> Result<Obligations, Fail> {
    let mut list = Obligations::new(rt.alloc());
    for (text, on, target) in rows {
        let mut item = item_of(rt.alloc(), named(rt, text), named(rt, on))?;
        item.pattern.target = target.map(|number| ElementId(number));
        list.oblige(item)?;
    }
    Ok(list)
}

/// A list and its copy.
#[derive(Drop)]
struct Both {
    list: Obligations,
    copy: Obligations,
}

fn copied(mut list: Obligations) -> Result<Both, Memory> {
    list.share()?;
    let copy = list.copy()?;
    Ok(Both { list, copy })
}

/// Withdraws the second obligation: the third is then the second.
fn withdraw_b(rt: &impl Abort, list: &mut Obligations) -> Result<(), ObligError> {
    let b = list.withdraw(named(rt, "b"))?;
    assert!(rt; b.name == named(rt, "b"));
    assert!(rt; list.find(named(rt, "c")) == Some(1) && list.len() == 3);
    Ok(())
}

/// Withdraws the second of three, to which 64 stands.
fn withdraw_c(rt: &impl Abort, list: &mut Obligations) -> Result<(), Fail> {
    assert!(rt; list.len() == 3);
    let c = list.withdraw_at(1)?;
    assert!(rt; c.pattern.target == Some(ElementId(64)));
    assert!(rt; list.names(ElementId(63)) && !list.names(ElementId(64)));
    assert!(rt; list.get(2).is_none());
    Ok(())
}

/// The list has all four still.
fn check_four(rt: &impl Abort, list: &Obligations) {
    assert!(rt; list.len() == 4);
    assert!(rt; list.obligations_from(0).len() == 4);
    assert!(rt; list.at(1).name == named(rt, "b"));
}

#[test]
fn a_copy_keeps_what_is_withdrawn(rt: HostRuntime) -> Result<(), Fail> {
    let mut both = copied(list_of(&rt, &ROWS)?)?;
    withdraw_b(&rt, &mut both.list)?;
    withdraw_c(&rt, &mut both.list)?;
    check_four(&rt, &both.copy);
    Ok(())
}
