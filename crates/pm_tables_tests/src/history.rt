//! Histories with answers worked out by hand.

ghost use Rattle.std.specs.Prelude.{◌<◌};

use pm_history::*;
use pm_model::{Body, Entry, Request};
use std::alloc::Global;
use std::process::Abort;
use std::test::Fail;

/// The entry of this seat and number, which asks to end the process.
fn end_of(seat: u32, nth: u64, process: u32) -> Entry {
    Entry {
        seat,
        nth,
        request: Request {
            after: None,
            body: Body::EndProcess { process },
        },
    }
}

/// The seat and the number of the entry at a place.
fn at(history: &History, i: u64) -> Option<(u32, u64)> {
    let entry = history.get(i)?;
    Some((entry.seat, entry.nth))
}

#[test]
fn the_third_of_two_is_full(rt: HostRuntime) {
    let mut history = History::new(rt.alloc(), 2);
    let first = history.push(end_of(4, 1, 7));
    let second = history.push(end_of(3, 1, 8));
    assert!(rt; first.is_ok() && second.is_ok());
    let third = history.push(end_of(4, 2, 9));
    assert!(rt; third == Err(HistoryError::Full));
    assert!(rt; history.len() == 2 && history.limit() == 2);
}

/// A history and its copy.
#[derive(Drop)]
struct Both {
    history: History,
    copy: History,
}

/// Puts two entries of seat 5 behind the others.
fn push_two(history: &mut History) -> Result<(), HistoryError> {
    history.push(end_of(5, 1, 9))?;
    history.push(end_of(5, 2, 9))
}

/// A history of so many entries, all of seat 4.
fn history_of(alloc: Global, count: u64) -> Result<History, HistoryError> {
    let mut history = History::new(alloc, 262144);
    for nth in 0..count {
        history.push(end_of(4, nth, 7))?;
    }
    Ok(history)
}

/// So many entries in both, but that the copy has another in the place of the last. Each then goes on with one of its own.
fn apart(alloc: Global, count: u64) -> Result<Both, Fail> {
    let mut history = history_of(alloc, count)?;
    history.share()?;
    let mut copy = history.copy()?;
    history.push(end_of(3, 1, 8))?;
    if copy.len() > 0 {
        copy.take_back();
    }
    push_two(&mut copy)?;
    Ok(Both { history, copy })
}

/// What stands at a place of the one and of the other.
fn both_are(
    rt: &impl Abort,
    both: &Both,
    i: u64,
    one: Option<(u32, u64)>,
    other: Option<(u32, u64)>,
) {
    assert_eq!(rt;
        (at(&both.history, i), at(&both.copy, i)),
        (one, other),
        "at {i}"
    );
}

/// The places at which they go apart, and some before, of so many entries that they began with.
fn check_apart(rt: &impl Abort, both: &Both, before: u64, last: u64, count: u64)
    requires { count < 2000 }
{
    both_are(rt, both, 0, Some((4, 0)), Some((4, 0)));
    both_are(rt, both, before, Some((4, before)), Some((4, before)));
    both_are(rt, both, last, Some((4, last)), Some((5, 1)));
    both_are(rt, both, count, Some((3, 1)), Some((5, 2)));
    both_are(rt, both, count + 1, None, None);
    assert!(rt; both.history.len() == count + 1 && both.copy.len() == count + 1);
}

/// The last two places of so many entries, around the ends of pages.
const ENDS: [(u64, u64, u64); 8] = [
    (253, 254, 255),
    (254, 255, 256),
    (255, 256, 257),
    (510, 511, 512),
    (511, 512, 513),
    (1021, 1022, 1023),
    (1022, 1023, 1024),
    (1023, 1024, 1025),
];

#[test]
fn copies_go_apart_across_the_end_of_a_page(rt: HostRuntime) -> Result<(), Fail> {
    for (before, last, count) in ENDS {
        let both = apart(rt.alloc(), count)?;
        check_apart(&rt, &both, before, last, count);
    }
    Ok(())
}
