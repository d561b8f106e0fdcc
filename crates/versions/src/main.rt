//! Makes one version of the machine after another, each by a step from the one before, keeps all to the
//! end, and then looks whether each still is as it was made. For measurement: the arguments are how many
//! elements the policy has beside a class, how many versions are made of it, and whether each of these
//! changes what is contained in what, which a third argument other than 0 says.
#![tactic(auto)]

mod policy;

use pm_machine::Stepped;
use pm_model::{Command, Memory, Name, Parents, Reach};
use pm_state::State;
use pm_step::step;
use policy::{admin, class_name, element_name, policy};
use std::alloc::Global;
use std::env;
use std::env::Args;
use std::process::ExitCode;
use std::thread::Threads;

/// The next word as a number, or 0.
fn number(args: &mut Args) -> u32 {
    match args.next() {
        Some(word) => word.parse::<u32>().unwrap_or(0),
        None => 0,
    }
}

/// What an element is assigned to, and taken out of again.
#[derive(Clone, Copy)]
enum Target {
    /// The class, which contains it already: all is contained in what it was.
    Class,
    /// The element next to its container: it, and all that is contained in it, is contained in one more.
    Neighbour,
}

/// The number of the element that change n is of: any but the first nine, of which some are that next to their
/// container.
fn element(n: u32, elements: u32) -> Option<u32> {
    let others = elements.checked_sub(9)?;
    let which = (n / 2).wrapping_mul(7919).checked_rem(others)?;
    Some(which + 9)
}

/// What changes of an element assign it to.
fn target_name(target: Target, element: u32) -> Option<Name> {
    match target {
        Target::Class => class_name(),
        Target::Neighbour => element_name(element.checked_sub(1)? / 8 + 1),
    }
}

/// Change n: an element is assigned to its target, or taken out of it again.
fn change(target: Target, n: u32, elements: u32) -> Option<Command> {
    let number = element(n, elements)?;
    let from = element_name(number)?;
    let to = target_name(target, number)?;
    if n % 2 == 0 {
        return Some(Command::Assign { from, to });
    }
    Some(Command::Deassign { from, to })
}

/// The version after this one, which shares what it can with it; None where the change is refused.
fn next<R: Threads + Sync>(
    rt: &R,
    state: &mut State,
    command: Command,
) -> Result<Option<State>, Memory> {
    state.share()?;
    let nth = state.version() + 1;
    match step(rt, state, 0, nth, &admin(command))? {
        Stepped::Accepted(next, _reply) => Ok(Some(next)),
        Stepped::Answered(_reply) => Ok(None),
    }
}

/// The versions that the changes make, each of the one before; it stops at a change that is refused.
fn versions<R: Threads + Sync>(
    rt: &R,
    alloc: Global,
    first: State,
    target: Target,
    elements: u32,
    count: u32,
) -> Result<Vec<State>, Memory> {
    let mut versions = Vec::with_capacity(alloc, (count as usize).saturating_add(1))?;
    versions.push(first)?;
    for n in 0..count {
        let Some(command) = change(target, n, elements) else {
            break;
        };
        let Some(last) = versions.last_mut() else {
            break;
        };
        let Some(state) = next(rt, last, command)? else {
            break;
        };
        versions.push(state)?;
    }
    Ok(versions)
}

/// Whether the version is as change n left its element: assigned to its container and the target, and contained in
/// both; or assigned to its container alone. None where the element or the target isn't there.
fn is_right(version: &State, target: Target, n: u32, elements: u32) -> Option<bool> {
    let number = element(n, elements)?;
    let graph = version.graph();
    let table = graph.elements();
    let from = table.find(element_name(number)?)?;
    let to = table.find(target_name(target, number)?)?;
    if !table.live(from) || !table.live(to) {
        return None;
    }
    let assigned = n % 2 == 0;
    let containers = if assigned { 2 } else { 1 };
    let contained = assigned || matches!(target, Target::Class);
    Some(table.count(from) == containers && graph.reach().contains(from, to) == contained)
}

/// How many versions are as the changes that made them, counted from 0, left them.
fn right(versions: &[State], target: Target, elements: u32) -> usize {
    let mut count = 0usize;
    let mut n = 0u32;
    for version in versions.iter().skip(1) {
        if is_right(version, target, n, elements) == Some(true) {
            count = count.saturating_add(1);
        }
        n = n.wrapping_add(1);
    }
    count
}

/// How many elements there are, how many versions, and how many of those that were made are as they were made.
fn measure<R: Threads + AllocGlobal + Sync>(
    rt: &R,
    target: Target,
    elements: u32,
    count: u32,
) -> Result<(usize, usize, usize), Memory> {
    let first = policy(rt, rt.alloc(), elements)?;
    let held = first.graph().elements().len();
    let versions = versions(rt, rt.alloc(), first, target, elements, count)?;
    Ok((
        held,
        versions.len(),
        right(versions.as_slice(), target, elements),
    ))
}

fn main(rt: HostRuntime) -> ExitCode {
    let Ok(mut args) = env::args(&rt) else {
        return ExitCode::FAILURE;
    };
    let _name = args.next();
    let elements = number(&mut args);
    let count = number(&mut args);
    let target = if number(&mut args) == 0 {
        Target::Class
    } else {
        Target::Neighbour
    };
    match measure(&rt, target, elements, count) {
        Ok((elements, versions, right)) => {
            let _ = println!(rt; "{elements} elements, {versions} versions, {right} made and kept");
            ExitCode::SUCCESS
        }
        Err(Memory) => ExitCode::FAILURE,
    }
}
