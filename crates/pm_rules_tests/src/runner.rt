//! Obligations that match, by hand, and a run over a machine that only notes what it is asked.

use pm_model::{
    Act, Action, ActionList, ElementId, Event, Guard, GuardList, Memory, Name, Obligation, Pattern,
    Place, Reach, Response, Term,
};
use pm_oblig::Obligations;
use std::alloc::Global;
use std::process::Abort;
use std::test::Fail;

mod matched;
mod running;

fn named(rt: &impl Abort, text: &str) -> Name {
    Name::new(text.as_bytes()).expect(rt, "a name")
}
