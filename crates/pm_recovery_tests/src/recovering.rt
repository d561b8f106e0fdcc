//! Houses of two seats over journals that a crash cuts off, and houses that go on from what it leaves.

use crate::houses::{Run, Why, go_on};
use pm_disk::MemDisk;
use std::alloc::Global;
use std::cell::RefCell;
use std::process::Abort;
use std::sync::Wait;
use std::thread::Threads;

const ROOM: usize = 4096;

const CALLS: u32 = 1_000_000;

// A journal of no entry.
const NO_ENTRY: &[u8] = b"NGACJ001\0";

// A file of these bytes. So many calls are allowed, and those of these numbers fail.
fn file<R: Abort + Alloc<A = Global>>(
    rt: &R,
    bytes: &[u8],
    calls: u32,
    failing: &[u64],
) -> RefCell<MemDisk> {
    assert!(rt; bytes.len() <= ROOM);
    match MemDisk::new(rt.alloc(), bytes, ROOM, calls, failing) {
        Ok(file) => RefCell::new(file),
        Err(_) => panic!(rt; "memory"),
    }
}

// What a crash leaves of a file. No call of it fails.
fn left<R: Abort + Alloc<A = Global>>(
    rt: &R,
    cut_off: &RefCell<MemDisk>,
    mix: u8,
) -> RefCell<MemDisk> {
    let Ok(cut_off) = cut_off.try_borrow() else {
        panic!(rt; "in use")
    };
    match cut_off.crash(mix) {
        Ok(left) => file(rt, left.bytes(), CALLS, &[]),
        Err(_) => panic!(rt; "memory"),
    }
}

// How many entries a house over the file comes to, of three; none where the file fails as it is opened.
fn reached<R: Threads + Wait + Abort + Alloc<A = Global> + Sync>(
    rt: &R,
    file: &RefCell<MemDisk>,
) -> u64 {
    match go_on(rt, file, 3) {
        Ok(run) => run.to,
        Err(why) => {
            assert_eq!(rt; why, Why::Failed);
            0
        }
    }
}

// With how many entries a house begins that goes on, to three, from what a crash leaves of the file.
fn recovered<R: Threads + Wait + Abort + Alloc<A = Global> + Sync>(
    rt: &R,
    file: &RefCell<MemDisk>,
    mix: u8,
) -> u64 {
    match go_on(rt, &left(rt, file, mix), 3) {
        Ok(Run { from, to: 3 }) => from,
        _ => panic!(rt; "not recovered"),
    }
}

// After so many calls a crash leaves what was told, or one entry more. It says whether all was told.
fn cut_off_after<R: Threads + Wait + Abort + Alloc<A = Global> + Sync>(rt: &R, calls: u32) -> bool {
    let file = file(rt, NO_ENTRY, calls, &[]);
    let told = reached(rt, &file);
    for mix in [0, 1, 7] {
        let recovered = recovered(rt, &file, mix);
        assert!(rt; recovered == told || recovered == told.saturating_add(1));
    }
    told == 3
}

#[test]
fn a_crash_after_each_call_loses_nothing_that_was_told(rt: HostRuntime) {
    let mut whole = false;
    for calls in 0..40 {
        whole = cut_off_after(&rt, calls);
    }
    assert!(rt; whole);
}

#[test]
fn one_fault_at_each_call_is_told_and_gone_past(rt: HostRuntime) {
    for call in 1..40 {
        let file = file(&rt, NO_ENTRY, CALLS, &[call]);
        let told = reached(&rt, &file);
        assert!(rt; told == 3 || told == 0);
        assert_eq!(rt; recovered(&rt, &file, 7), told);
    }
}

// Files of one record, of no journal, and damaged ones, each with what comes of it.
static FILES: &[(&[u8], Result<Run, Why>)] = &[
    (
        b"NGACJ001\x01\0\0\0\x27\0\0\0\0\0\0\0\0\0\0\0\x01{\"cmd\":\"create_pc\",\"name\":\"a\",\"proc\":0}\0",
        Ok(Run { from: 1, to: 3 }),
    ),
    (
        b"NGACJ001\x01\0\0\0\x27\0\0\0\0\0\0\0\0\0\0\0\x02{\"cmd\":\"create_pc\",\"name\":\"a\",\"proc\":0}\0",
        Err(Why::Illegal(0)),
    ),
    (
        b"NGACJ001\x01\0\0\0\x27\0\0\0\x02\0\0\0\0\0\0\0\x01{\"cmd\":\"create_pc\",\"name\":\"a\",\"proc\":0}\0",
        Err(Why::Illegal(0)),
    ),
    (
        b"NGACJ001\x01\0\0\0\x27\0\0\0\0\0\0\0\0\0\0\0\x01{\"cmd\":\"create_pc\",\"name\":\"a\",\"proc\":0}\x01",
        Err(Why::Damaged(64)),
    ),
    (b"NGACJ001\x01", Err(Why::Damaged(8))),
    (b"NGACJ002\0", Err(Why::NotJournal)),
];

#[test]
fn what_is_damaged_is_told_so(rt: HostRuntime) {
    for (bytes, comes) in FILES {
        let file = file(&rt, bytes, CALLS, &[]);
        assert!(rt; go_on(&rt, &file, 3) == *comes);
    }
}

#[test]
fn a_history_is_recovered_again_and_again(rt: HostRuntime) {
    let file = file(&rt, b"", CALLS, &[]);
    for (from, to) in [(0, 1), (1, 1), (1, 3), (3, 3), (3, 3)] {
        assert!(rt; go_on(&rt, &file, to) == Ok(Run { from, to }));
    }
}
