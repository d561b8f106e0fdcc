//! Each call that takes memory, with ample memory: what it answers.

use pm_model::{
    Act, Action, ActionList, Command, ElementId, EventNames, GuardList, Kind, Memory, Name,
    Obligation, Pattern, Place, Response, Term,
};
use pm_oblig::{ObligError, Obligations, bind};
use std::alloc::Global;
use std::process::Abort;
use std::test::Fail;

mod list;
mod made;

fn named(rt: &impl Abort, text: &str) -> Name {
    Name::new(text.as_bytes()).expect(rt, "a name")
}

/// The act with no guard.
fn unguarded(alloc: Global, act: Act) -> Action {
    Action {
        guards: GuardList::new(alloc),
        act,
    }
}
