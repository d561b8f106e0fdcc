//! Rows worked out by hand: an empty file, and the calls of one entry.
use crate::history::{CALLS, FIRST, ROOM, entry_of, file, file_with, keep, keeper, recovered_by};
use crate::quiet::Quiet;
use pm_journal::{Journal, Keeper};
use pm_model::Keep;
use std::alloc::Global;
use std::process::Abort;

// How many calls it takes to open a file of the header and a closed gate.
fn calls_of_open<R: Abort + Alloc<A = Global>>(rt: &R) -> u32 {
    for calls in 0..64 {
        let disk = file_with(rt, b"NGACJ001\0", ROOM, calls, &[]);
        if Journal::open(rt.alloc(), disk).is_ok() {
            return calls;
        }
    }
    panic!(rt; "never opened")
}

// The keeper of such a file, once so many calls more were made.
fn stopped<R: Abort + Alloc<A = Global>>(rt: &R, calls: u32) -> Keeper<Quiet> {
    let all = calls_of_open(rt).saturating_add(calls);
    let disk = file_with(rt, b"NGACJ001\0", ROOM, all, &[]);
    keeper(rt, disk)
}

#[test]
fn an_empty_file_gets_a_header_and_a_closed_gate(rt: HostRuntime) {
    let keeper = keeper(&rt, file(&rt, b""));
    assert_eq!(rt;
        keeper.journal().disk().file.bytes(),
        b"NGACJ001\0".as_slice()
    );
    assert_eq!(rt; recovered_by(&rt, &keeper, 0), 0);
}

#[test]
fn an_entry_takes_60_bytes_more(rt: HostRuntime) {
    let mut keeper = keeper(&rt, file(&rt, b""));
    let entry = entry_of(&rt, 0, 1, FIRST.as_bytes());
    assert!(rt; keeper.keep(0, &entry).is_ok());
    let mut wanted = Vec::from_slice(rt.alloc(), b"NGACJ001").expect(&rt, "memory");
    let head = [1, 0, 0, 0, 43, 0, 0, 0, 0, 0, 0, 0, 0, 0, 0, 0, 1];
    wanted.extend_from_slice(&head).expect(&rt, "memory");
    wanted
        .extend_from_slice(FIRST.as_bytes())
        .expect(&rt, "memory");
    wanted.push(0).expect(&rt, "memory");
    let bytes = keeper.journal().disk().file.bytes();
    assert_eq!(rt; (FIRST.len(), bytes.len()), (43, 69));
    assert!(rt; bytes == wanted.as_slice());
}

#[test]
fn a_stop_before_the_gate_recovers_nothing(rt: HostRuntime) {
    for calls in 0..3 {
        let mut keeper = stopped(&rt, calls);
        assert!(rt; !keep(&rt, &mut keeper, 0));
        for mix in [0, 1, 7] {
            assert_eq!(rt; recovered_by(&rt, &keeper, mix), 0);
        }
    }
}

#[test]
fn a_stop_at_the_gate_recovers_it_or_not(rt: HostRuntime) {
    let mut keeper = stopped(&rt, 3);
    assert!(rt; !keep(&rt, &mut keeper, 0));
    assert_eq!(rt; recovered_by(&rt, &keeper, 0), 0);
    assert_eq!(rt; recovered_by(&rt, &keeper, 1), 1);
    assert_eq!(rt; recovered_by(&rt, &keeper, 7), 1);
}

#[test]
fn a_stop_behind_the_last_sync_recovers_it(rt: HostRuntime) {
    let mut keeper = stopped(&rt, 4);
    assert!(rt; keep(&rt, &mut keeper, 0));
    for mix in [0, 1, 7] {
        assert_eq!(rt; recovered_by(&rt, &keeper, mix), 1);
    }
}

#[test]
fn a_gate_in_doubt_is_closed_first(rt: HostRuntime) {
    let third = (calls_of_open(&rt) as u64).saturating_add(3);
    let disk = file_with(&rt, b"NGACJ001\0", ROOM, CALLS, &[third]);
    let mut keeper = keeper(&rt, disk);
    let failing = entry_of(&rt, 5, 1, br#"{"cmd":"create_pc","name":"other","proc":0}"#);
    assert!(rt; keeper.keep(0, &failing).is_err());
    assert!(rt; keep(&rt, &mut keeper, 0));
    for mix in [0, 1, 7] {
        assert_eq!(rt; recovered_by(&rt, &keeper, mix), 1);
    }
}
