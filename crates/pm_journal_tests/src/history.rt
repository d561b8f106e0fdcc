//! A history of every command, and journals over files in memory.
use crate::quiet::Quiet;
use pm_disk::MemDisk;
use pm_journal::{Journal, Keeper};
use pm_model::{Entry, ItemList, Keep, What};
use pm_print::print_request;
use pm_read::read_request;
use std::alloc::Global;
use std::process::Abort;

/// The first line, of 43 bytes.
pub(crate) const FIRST: &str = r#"{"cmd":"create_pc","name":"files","proc":0}"#;

// Requests as their lines are printed, each command among them.
pub(crate) static LINES: &[&str] = &[
    FIRST,
    r#"{"cmd":"create_oa","into":"files","name":"docs","proc":0}"#,
    r#"{"cmd":"create_ua","into":"files","name":"staff","proc":0}"#,
    r#"{"cmd":"create_user","into":"staff","name":"ann","proc":0}"#,
    r#"{"cmd":"create_object","into":"docs","name":"memo","proc":0}"#,
    r#"{"after":5,"cmd":"create_oa","into":"files","name":"kept.by-others_1","proc":0}"#,
    r#"{"cmd":"assign","from":"docs","proc":0,"to":"kept.by-others_1"}"#,
    r#"{"cmd":"deassign","from":"docs","proc":0,"to":"kept.by-others_1"}"#,
    r#"{"at":"docs","cmd":"associate","proc":0,"rights":["write","read"],"ua":"staff"}"#,
    r#"{"at":"docs","cmd":"dissociate","proc":0,"ua":"staff"}"#,
    r#"{"cmd":"define_right","name":"print","proc":0}"#,
    r#"{"at":"docs","cmd":"associate","proc":0,"rights":["print"],"ua":"staff"}"#,
    r#"{"cmd":"prohibit","exc":[],"inc":["docs"],"mode":"all","name":"no.print","proc":0,"rights":["print"],"subject":{"user":"ann"}}"#,
    r#"{"cmd":"prohibit","exc":["docs"],"inc":["files"],"mode":"any","name":"n","proc":0,"rights":["read"],"subject":{"ua":"staff"}}"#,
    r#"{"cmd":"open_session","user":"ann"}"#,
    r#"{"cmd":"start_process","session":1}"#,
    r#"{"cmd":"prohibit","exc":[],"inc":["docs"],"mode":"all","name":"one","proc":0,"rights":["read"],"subject":{"process":1}}"#,
    r#"{"cmd":"lift","name":"no.print","proc":0}"#,
    r#"{"cmd":"oblige","do":[{"cmd":"assign","from":"$user","to":"staff"}],"name":"mark","proc":0,"when":{"on":"read","target":"docs"}}"#,
    r#"{"cmd":"oblige","do":[{"cmd":"create_object","into":"docs","name":"$fresh"},{"cmd":"delete","if":[["in","$target","docs"],["not_in","$user","staff"]],"name":"memo"}],"name":"two","proc":0,"when":{"on":"read"}}"#,
    r#"{"cmd":"oblige","do":[{"cmd":"prohibit","exc":[],"inc":["docs"],"mode":"all","name":"$fresh","rights":["write"],"subject":{"process":"$process"}}],"name":"hold","proc":0,"when":{"on":"read","target":"docs","user":"ann"}}"#,
    r#"{"cmd":"access","proc":1,"right":"print","target":"memo"}"#,
    r#"{"cmd":"withdraw","name":"mark","proc":0}"#,
    r#"{"cmd":"keep","kind":"caps","of":"ann","proc":0}"#,
    r#"{"cmd":"keep","kind":"entries","of":"memo","proc":0}"#,
    r#"{"cmd":"drop_review","proc":0,"review":1}"#,
    r#"{"cmd":"end_process","process":1}"#,
    r#"{"cmd":"close_session","session":1}"#,
    r#"{"cmd":"delete","name":"memo","proc":0}"#,
    r#"{"after":18446744073709551615,"cmd":"version"}"#,
];

pub(crate) const ROOM: usize = 1 << 16;

pub(crate) const CALLS: u32 = 1_000_000;

/// The entry of a line's request, where there is memory and it asks one.
pub(crate) fn entry_if(alloc: Global, seat: u32, nth: u64, line: &[u8]) -> Option<Entry> {
    let asked = read_request(alloc, line).ok()?;
    match &asked.what {
        What::Request(request) => {
            let request = request.copy().ok()?;
            Some(Entry { seat, nth, request })
        }
        What::Bad(_) => None,
    }
}

/// The entry of a line's request.
pub(crate) fn entry_of<R: Abort + Alloc<A = Global>>(
    rt: &R,
    seat: u32,
    nth: u64,
    line: &[u8],
) -> Entry {
    entry_if(rt.alloc(), seat, nth, line).expect(rt, "a request")
}

/// A file of these bytes with this room. So many calls are allowed, and those of these numbers fail.
pub(crate) fn file_with<R: Abort + Alloc<A = Global>>(
    rt: &R,
    bytes: &[u8],
    room: usize,
    calls: u32,
    failing: &[u64],
) -> Quiet {
    assert!(rt; bytes.len() <= room);
    match MemDisk::new(rt.alloc(), bytes, room, calls, failing) {
        Ok(file) => Quiet::new(file),
        Err(_) => panic!(rt; "memory"),
    }
}

/// A file of these bytes, in which no call fails.
pub(crate) fn file<R: Abort + Alloc<A = Global>>(rt: &R, bytes: &[u8]) -> Quiet {
    file_with(rt, bytes, ROOM, CALLS, &[])
}

/// The keeper of a file that can be opened.
pub(crate) fn keeper<R: Abort + Alloc<A = Global>>(rt: &R, disk: Quiet) -> Keeper<Quiet> {
    match Journal::open(rt.alloc(), disk) {
        Ok((journal, _entries)) => Keeper::new(rt.alloc(), journal),
        Err(_) => panic!(rt; "not opened"),
    }
}

/// The number of the entry at this place.
pub(crate) fn nth(i: usize) -> u64 {
    (i as u64).saturating_add(1)
}

/// Keeps the entry of the history at this place, from 0: that of seat 3 with the next number.
pub(crate) fn keep<R: Abort + Alloc<A = Global>>(
    rt: &R,
    keeper: &mut Keeper<Quiet>,
    i: usize,
) -> bool {
    match LINES.get(i) {
        None => false,
        Some(line) => {
            let entry = entry_of(rt, 3, nth(i), line.as_bytes());
            keeper.keep(0, &entry).is_ok()
        }
    }
}

/// The entry is that of the history at this place.
pub(crate) fn is_at(alloc: Global, entry: &Entry, i: usize) -> bool {
    let mut line = Vec::new(alloc);
    if print_request(None, &entry.request, &mut line).is_err() {
        return false;
    }
    line.pop();
    i < LINES.len()
        && entry.seat == 3
        && entry.nth == nth(i)
        && line.as_slice() == LINES[i].as_bytes()
}

/// How many entries of the history a file stands for, where these are its first.
pub(crate) fn recovered<R: Abort + Alloc<A = Global>>(rt: &R, disk: Quiet) -> usize {
    match Journal::open(rt.alloc(), disk) {
        Ok((_journal, entries)) => first_of(rt, &entries),
        Err(_) => panic!(rt; "not opened"),
    }
}

fn first_of<R: Abort + Alloc<A = Global>>(rt: &R, entries: &ItemList<Entry>) -> usize {
    for (i, entry) in entries.as_slice().iter().enumerate() {
        assert!(rt; is_at(rt.alloc(), entry, i));
    }
    entries.len()
}

/// What a crash leaves of a keeper's file, which is then opened.
pub(crate) fn recovered_by<R: Abort + Alloc<A = Global>>(
    rt: &R,
    keeper: &Keeper<Quiet>,
    mix: u8,
) -> usize {
    match keeper.journal().disk().file.crash(mix) {
        Ok(file) => recovered(rt, Quiet::new(file)),
        Err(_) => panic!(rt; "memory"),
    }
}
