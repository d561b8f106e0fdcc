//! Files that are no journals, damaged ones, and records in another spelling.
use crate::history::{LINES, file, keep, keeper, recovered};
use pm_journal::{Journal, OpenError};
use std::alloc::Global;
use std::process::Abort;

// Why a file isn't opened, which leaves it as it is.
fn refused<R: Abort + Alloc<A = Global>>(rt: &R, bytes: &[u8]) -> OpenError {
    match Journal::open(rt.alloc(), file(rt, bytes)) {
        Ok(_) => panic!(rt; "opened"),
        Err(unopened) => {
            assert!(rt; unopened.disk.file.bytes() == bytes);
            unopened.why
        }
    }
}

// The first bytes of a file.
fn front<'a, R: Abort>(rt: &R, bytes: &'a [u8], len: usize) -> &'a [u8] {
    assert!(rt; len <= bytes.len());
    &bytes[..len]
}

// The file of the first entry of the history.
fn one_entry<R: Abort + Alloc<A = Global>>(rt: &R) -> Vec<u8> {
    let mut keeper = keeper(rt, file(rt, b""));
    assert!(rt; keep(rt, &mut keeper, 0));
    keeper
        .journal()
        .disk()
        .file
        .bytes()
        .to_vec(rt.alloc())
        .expect(rt, "memory")
}

// A file with one record, of this line.
fn with_line<R: Abort + Alloc<A = Global>>(rt: &R, line: &[u8]) -> Vec<u8> {
    let mut bytes = Vec::from_slice(rt.alloc(), b"NGACJ001").expect(rt, "memory");
    bytes.push(9).expect(rt, "memory");
    bytes
        .extend_from_slice(
            &u32::try_from(line.len())
                .expect(rt, "a short line")
                .to_be_bytes(),
        )
        .expect(rt, "memory");
    bytes
        .extend_from_slice(&[0, 0, 0, 3, 0, 0, 0, 0, 0, 0, 0, 1])
        .expect(rt, "memory");
    bytes.extend_from_slice(line).expect(rt, "memory");
    bytes.push(0).expect(rt, "memory");
    bytes
}

#[test]
fn a_file_of_another_program_is_no_journal(rt: HostRuntime) {
    assert_eq!(rt; refused(&rt, b"NGACJ"), OpenError::NotJournal);
    assert_eq!(rt; refused(&rt, b"NGACJ001"), OpenError::NotJournal);
    assert_eq!(rt; refused(&rt, b"NGACJ002\0"), OpenError::NotJournal);
    assert_eq!(rt;
        refused(&rt, b"%PDF-1.7 and what follows it"),
        OpenError::NotJournal
    );
}

#[test]
fn a_file_cut_at_any_byte_is_told_so(rt: HostRuntime) {
    let bytes = one_entry(&rt);
    for len in 1..9 {
        assert_eq!(rt;
            refused(&rt, front(&rt, &bytes, len)),
            OpenError::NotJournal
        );
    }
    for len in 9..bytes.len() {
        assert_eq!(rt;
            refused(&rt, front(&rt, &bytes, len)),
            OpenError::Damaged { at: 8 }
        );
    }
}

#[test]
fn a_line_that_asks_nothing_is_damage(rt: HostRuntime) {
    assert_eq!(rt;
        refused(&rt, &with_line(&rt, b"{}")),
        OpenError::Damaged { at: 8 }
    );
    assert_eq!(rt;
        refused(&rt, &with_line(&rt, b"")),
        OpenError::Damaged { at: 8 }
    );
}

#[test]
fn a_record_in_another_spelling_stands(rt: HostRuntime) {
    let line = br#" {"proc":0, "name":"files", "id":4, "cmd":"create_pc"}"#;
    assert_eq!(rt; recovered(&rt, file(&rt, &with_line(&rt, line))), 1);
}

#[test]
fn what_follows_the_closed_gate_means_nothing(rt: HostRuntime) {
    let mut bytes = one_entry(&rt);
    bytes
        .extend_from_slice(&[1, 0, 0, 255, 7])
        .expect(&rt, "memory");
    assert_eq!(rt; recovered(&rt, file(&rt, &bytes)), 1);
    let opened = keeper(&rt, file(&rt, &bytes));
    assert_eq!(rt; opened.journal().disk().file.bytes().len(), 69);
}

#[test]
fn damage_behind_whole_records_is_told_by_its_place(rt: HostRuntime) {
    let mut bytes = one_entry(&rt);
    let _gate = bytes.pop();
    bytes.push(1).expect(&rt, "memory");
    assert_eq!(rt; refused(&rt, &bytes), OpenError::Damaged { at: 68 });
    assert_eq!(rt; LINES.len(), 30);
}
