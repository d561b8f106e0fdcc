//! A journal in a file of the system.
use crate::history::{LINES, entry_if, is_at, nth};
use pm_disk::{FileError, open_file};
use pm_journal::{Journal, Keeper};
use pm_model::Keep;
use std::fs;
use std::process::Abort;

const PATH: &str = "a-file-for-the-tests.journal";

// The history is kept in a new file, which meanwhile no other has.
fn write_all(rt: &HostRuntime) -> Option<bool> {
    let (journal, entries) = Journal::open(rt.alloc(), open_file(rt, PATH).ok()?).ok()?;
    let mut all = entries.len() == 0;
    let mut keeper = Keeper::new(rt.alloc(), journal);
    for (i, line) in LINES.iter().enumerate() {
        let entry = entry_if(rt.alloc(), 3, nth(i), line.as_bytes())?;
        all = all && keeper.keep(0, &entry).is_ok();
    }
    let busy = matches!(open_file(rt, PATH), Err(FileError::Busy));
    Some(all && busy)
}

fn read_all(rt: &HostRuntime) -> Option<bool> {
    let (_journal, entries) = Journal::open(rt.alloc(), open_file(rt, PATH).ok()?).ok()?;
    let mut all = entries.len() == LINES.len();
    for (i, entry) in entries.as_slice().iter().enumerate() {
        all = all && is_at(rt.alloc(), entry, i);
    }
    Some(all)
}

#[test]
fn a_file_is_read_back_and_is_one_servers(rt: HostRuntime) {
    let _absent = fs::remove_file(&rt, PATH);
    let written = write_all(&rt);
    let read = read_all(&rt);
    let removed = fs::remove_file(&rt, PATH).is_ok();
    assert_eq!(rt; (written, read, removed), (Some(true), Some(true), true));
}
