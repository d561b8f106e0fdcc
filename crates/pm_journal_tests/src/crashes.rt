//! A long history whose disk stops, or fails once, at each of its calls.
use crate::history::{CALLS, LINES, ROOM, file_with, keep, keeper, recovered_by};
use crate::quiet::Quiet;
use pm_journal::{Journal, Keeper};
use std::alloc::Global;
use std::process::Abort;

// How many of the history's entries are told as kept, up to the first that isn't.
fn told<R: Abort + Alloc<A = Global>>(rt: &R, keeper: &mut Keeper<Quiet>) -> usize {
    for i in 0..LINES.len() {
        if !keep(rt, keeper, i) {
            return i;
        }
    }
    LINES.len()
}

// After so many calls of the disk a crash leaves what was told, or one entry more. It says whether all were told.
fn stopped_after<R: Abort + Alloc<A = Global>>(rt: &R, calls: u32) -> bool {
    let disk = file_with(rt, b"NGACJ001\0", ROOM, calls, &[]);
    let Ok((journal, _entries)) = Journal::open(rt.alloc(), disk) else {
        return false;
    };
    let mut keeper = Keeper::new(rt.alloc(), journal);
    let told = told(rt, &mut keeper);
    for mix in [0, 1, 7] {
        let recovered = recovered_by(rt, &keeper, mix);
        assert!(rt; told <= recovered && recovered.saturating_sub(told) <= 1);
    }
    told == LINES.len()
}

// Whether all were told after one of these numbers of calls.
fn whole_between<R: Abort + Alloc<A = Global>>(rt: &R, from: u32, to: u32) -> bool {
    let mut whole = false;
    for calls in from..to {
        if stopped_after(rt, calls) {
            whole = true;
        }
    }
    whole
}

#[test]
fn a_stop_after_each_of_the_first_calls_loses_nothing_that_was_told(rt: HostRuntime) {
    assert!(rt; !whole_between(&rt, 0, 60));
}

#[test]
fn a_stop_after_each_of_the_next_calls_loses_nothing_that_was_told(rt: HostRuntime) {
    assert!(rt; !whole_between(&rt, 60, 100));
}

#[test]
fn a_stop_after_each_of_the_last_calls_loses_nothing_that_was_told(rt: HostRuntime) {
    assert!(rt; whole_between(&rt, 100, 130));
}

// One call fails, and each entry is given again until it is kept.
fn failed_at<R: Abort + Alloc<A = Global>>(rt: &R, call: u64) {
    let disk = file_with(rt, b"NGACJ001\0", ROOM, CALLS, &[call]);
    let Ok((journal, _entries)) = Journal::open(rt.alloc(), disk) else {
        return;
    };
    let mut keeper = Keeper::new(rt.alloc(), journal);
    let mut failed = false;
    for i in 0..LINES.len() {
        if !keep(rt, &mut keeper, i) {
            assert!(rt; !failed);
            failed = true;
            assert!(rt; keep(rt, &mut keeper, i));
        }
    }
    assert_eq!(rt; recovered_by(rt, &keeper, 7), LINES.len());
}

#[test]
fn one_fault_at_each_of_the_first_calls_is_told_and_gone_past(rt: HostRuntime) {
    for call in 1..65 {
        failed_at(&rt, call);
    }
}

#[test]
fn one_fault_at_each_of_the_last_calls_is_told_and_gone_past(rt: HostRuntime) {
    for call in 65..130 {
        failed_at(&rt, call);
    }
}

#[test]
fn a_full_disk_keeps_what_was_told(rt: HostRuntime) {
    let disk = file_with(&rt, b"", 300, CALLS, &[]);
    let mut keeper = keeper(&rt, disk);
    let told = told(&rt, &mut keeper);
    assert!(rt; 0 < told && told < LINES.len());
    assert_eq!(rt; recovered_by(&rt, &keeper, 1), told);
}
