//! What each caller does.

use crate::input::Input;
use crossbeam_utils::rule::Protocol;
use pm_house::{Home, House, Looked, Seat, Seats};
use pm_io::NoKeep;
use pm_model::{Memory, Reply, Request};
use pm_publish::{Glimpse, NeverBack, Sealed};
use pm_step::Edition;
use std::alloc::Global;
use std::sync::Wait;
use std::sync::atomic::{AtomicU64, Ordering};
use std::thread;
use std::thread::Threads;
use std::time::{Clock, Duration};

/// How many looks and requests there were, how many of the looks were answered without the desk, and how many of the
/// requests the machine accepted.
#[derive(Clone, Copy)]
pub(crate) struct Counts {
    pub(crate) looks: u64,
    pub(crate) answered: u64,
    pub(crate) submits: u64,
    pub(crate) accepted: u64,
}

/// A seat, how often it is to look, how many requests it is to submit, and what it did.
#[derive(Drop)]
pub(crate) struct Caller<H: Home>
where
    NeverBack: Protocol<Sealed<Edition, H>, Glimpse>,
{
    seat: Seat<Edition, H>,
    looks: u64,
    submits: u64,
    done: Counts,
}

fn seated<H: Home>(seat: Seat<Edition, H>, looks: u64, submits: u64) -> Caller<H> {
    Caller {
        seat,
        looks,
        submits,
        done: Counts {
            looks: 0,
            answered: 0,
            submits: 0,
            accepted: 0,
        },
    }
}

/// A caller for each seat: the first submits, the others look.
pub(crate) fn callers_of<H: Home>(
    alloc: Global,
    seats: &mut Seats<Edition, H>,
    looks: u64,
    submits: u64,
) -> Result<Vec<Caller<H>>, Memory> {
    let mut callers = Vec::new(alloc);
    for n in 0..32 {
        let Some(seat) = seats.seat(n) else {
            break;
        };
        if n == 0 {
            callers.push(seated(seat, 0, submits))?;
        } else {
            callers.push(seated(seat, looks, 0))?;
        }
    }
    Ok(callers)
}

/// The request of this number, where they come again and again.
fn in_turn(requests: &[Request], n: u64) -> Option<&Request> {
    let place = n.checked_rem(requests.len() as u64)?;
    requests.get(place as usize)
}

fn look<H: Home, R: Threads + Sync>(rt: &R, caller: &mut Caller<H>, request: &Request) {
    caller.done.looks = caller.done.looks.saturating_add(1);
    if let Ok(Looked::Answer { .. }) = caller.seat.look(rt, request) {
        caller.done.answered = caller.done.answered.saturating_add(1);
    }
}

fn submit<H: Home, R: Threads + Wait + AllocGlobal + Sync>(
    rt: &R,
    house: &House<Edition, NoKeep, H>,
    caller: &mut Caller<H>,
    request: &Request,
) -> Result<(), Memory> {
    caller.done.submits = caller.done.submits.saturating_add(1);
    let replied = caller.seat.submit(rt, rt.alloc(), house, request)?;
    if let Reply::Done { .. } = replied.reply {
        caller.done.accepted = caller.done.accepted.saturating_add(1);
    }
    Ok(())
}

/// The first caller makes the policy.
pub(crate) fn make<H: Home, R: Threads + Wait + AllocGlobal + Sync>(
    rt: &R,
    house: &House<Edition, NoKeep, H>,
    callers: &mut Vec<Caller<H>>,
    input: &Input,
) -> Result<(), Memory> {
    let Some(first) = callers.first_mut() else {
        return Ok(());
    };
    for request in &input.policy {
        submit(rt, house, first, request)?;
    }
    Ok(())
}

fn look_on<H: Home, R: Threads + Sync>(
    rt: &R,
    caller: &mut Caller<H>,
    input: &Input,
    looking: &AtomicU64,
) {
    for n in 0..caller.looks {
        if let Some(request) = in_turn(input.looked.as_slice(), n) {
            look(rt, caller, request);
        }
    }
    looking.fetch_sub(1, Ordering::SeqCst);
}

fn pause<R: Clock>(rt: &R, rest: u64) {
    if rest > 0 {
        thread::sleep(rt, Duration::from_millis(rest));
    }
}

// Rests so many milliseconds after each request. Stops once nobody looks any more, where somebody did.
fn submit_on<H: Home, R: Threads + Wait + Clock + AllocGlobal + Sync>(
    rt: &R,
    house: &House<Edition, NoKeep, H>,
    caller: &mut Caller<H>,
    input: &Input,
    rest: u64,
    looking: &AtomicU64,
) {
    let alone = looking.load(Ordering::SeqCst) == 0;
    for n in 0..caller.submits {
        if !alone && looking.load(Ordering::SeqCst) == 0 {
            return;
        }
        let Some(request) = in_turn(input.submitted.as_slice(), n) else {
            return;
        };
        if submit(rt, house, caller, request).is_err() {
            return;
        }
        pause(rt, rest);
    }
}

/// Each caller in a thread of its own.
pub(crate) fn work<H: Home + Send + Sync, R: Threads + Wait + Clock + AllocGlobal + Sync>(
    rt: &R,
    house: &House<Edition, NoKeep, H>,
    callers: &mut Vec<Caller<H>>,
    input: &Input,
    rest: u64,
) {
    let looking = AtomicU64::new((callers.len() as u64).saturating_sub(1));
    thread::for_each_mut(
        rt,
        callers.as_mut_slice(),
        32,
        &|place, caller: &mut Caller<H>| {
            if place == 0 {
                submit_on(rt, house, caller, input, rest, &looking);
            } else {
                look_on(rt, caller, input, &looking);
            }
        },
    );
}

/// What all did.
pub(crate) fn total<H: Home>(callers: &[Caller<H>]) -> Counts {
    let mut total = Counts {
        looks: 0,
        answered: 0,
        submits: 0,
        accepted: 0,
    };
    for caller in callers {
        let done = caller.done;
        total.looks = total.looks.saturating_add(done.looks);
        total.answered = total.answered.saturating_add(done.answered);
        total.submits = total.submits.saturating_add(done.submits);
        total.accepted = total.accepted.saturating_add(done.accepted);
    }
    total
}
