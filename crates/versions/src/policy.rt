//! A policy of one class and a tree of object attributes, eight in each.

use pm_model::{Body, Command, Kind, Memory, Name, Request};
use pm_state::State;
use pm_step::advance;
use std::alloc::Global;
use std::thread::Threads;

/// `e` and the six digits of a number.
pub(crate) fn element_name(n: u32) -> Option<Name> {
    let mut bytes = *b"e000000";
    let mut rest = n;
    for place in bytes.iter_mut().rev().take(6) {
        *place = b'0' + (rest % 10) as u8;
        rest /= 10;
    }
    Name::new(&bytes)
}

/// The class that holds them all.
pub(crate) fn class_name() -> Option<Name> {
    Name::new(b"top")
}

/// A command that process 0 gives, which is the root user's.
pub(crate) fn admin(command: Command) -> Request {
    Request {
        after: None,
        body: Body::Admin {
            process: 0,
            command,
        },
    }
}

/// The container of element n.
fn container(n: u32) -> Option<Name> {
    match n.checked_sub(1) {
        Some(before) => element_name(before / 8),
        None => class_name(),
    }
}

fn create(n: u32) -> Option<Command> {
    Some(Command::Create {
        kind: Kind::Oa,
        name: element_name(n)?,
        into: container(n)?,
    })
}

fn enter<R: Threads + Sync>(rt: &R, state: &mut State, command: Command) -> Result<(), Memory> {
    let request = admin(command);
    let nth = state.version() + 1;
    match advance(rt, state, 0, nth, &request) {
        Ok(_reply) => Ok(()),
        Err(Memory) => Err(Memory),
    }
}

/// The state with a policy of so many elements beside those of the opening.
pub(crate) fn policy<R: Threads + Sync>(
    rt: &R,
    alloc: Global,
    elements: u32,
) -> Result<State, Memory> {
    let mut state = State::opening(alloc)?;
    if let Some(name) = class_name() {
        enter(rt, &mut state, Command::CreatePc { name })?;
    }
    for n in 0..elements {
        if let Some(command) = create(n) {
            enter(rt, &mut state, command)?;
        }
    }
    Ok(state)
}
