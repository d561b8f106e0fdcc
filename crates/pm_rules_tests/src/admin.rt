//! The calls that take memory once in a small state, with answers worked out by hand.

ghost use Rattle.pm_model.specs.Formed.{IsLive, IsUser};

use pm_admin::{Ruling, authorise, permit};
use pm_model::{Change, Command, ElementId, Kind, Name, Refusal};
use pm_state::{Graph, State};
use std::process::Abort;
use std::test::Fail;

fn named(rt: &impl Abort, text: &str) -> Name {
    Name::new(text.as_bytes()).expect(rt, "a name")
}

// The opening has the class `pm` 0, the user attribute `pm_admins` 1 and the user `root` 2.
fn root(rt: &impl Abort, graph: &Graph) -> ElementId
    ensures live { IsLive graph.now.elements result }
    ensures user { IsUser graph.now.elements result }
{
    let id = ElementId(2);
    let elements = graph.elements();
    assert!(rt; elements.live(id) && matches!(elements.kind(id), Kind::User));
    id
}

fn said(rt: &impl Abort, graph: &Graph, command: &Command) -> &'static str {
    let user = root(rt, graph);
    match authorise(graph, user, Some(0), command) {
        Ok(Ruling::Allowed) => "allowed",
        Ok(Ruling::Refused(Refusal::UnknownName { .. })) => "unknown_name",
        Ok(Ruling::Refused(_)) => "another refusal",
        Err(_) => "no memory",
    }
}

// The number of the class that the change makes.
fn class_made(change: &Change) -> Option<u32> {
    match change {
        Change::Create {
            id,
            kind: Kind::Pc,
            into: None,
            ..
        } => Some(id.number()),
        _ => None,
    }
}

// The class that root's command makes.
fn made(rt: &impl Abort, graph: &Graph, command: &Command) -> Option<u32> {
    let user = root(rt, graph);
    match permit(graph, user, Some(0), command) {
        Ok(change) => class_made(&change),
        Err(_) => None,
    }
}

#[test]
fn root_makes_a_class_of_the_least_unused_number(rt: HostRuntime) -> Result<(), Fail> {
    let state = State::opening(rt.alloc())?;
    let graph = state.graph();
    let name = named(&rt, "files");
    let making = Command::CreatePc { name };
    assert_eq!(rt; said(&rt, graph, &making), "allowed");
    assert_eq!(rt; made(&rt, graph, &making), Some(3));
    let withdrawing = Command::Withdraw { name };
    assert_eq!(rt; said(&rt, graph, &withdrawing), "unknown_name");
    Ok(())
}
