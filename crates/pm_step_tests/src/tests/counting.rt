//! How many rights are judged for kept reviews, by the rules: one for each pair in the region of a change and in the scope of
//! a kept review.

use super::responding::{Deed, is_read, oblige};
use super::*;
use pm_model::{Kind, Mode, ReviewOf, Subject};
use pm_tally::Tally;

fn given(command: Command) -> Request {
    Request {
        after: None,
        body: by_process_0(command),
    }
}

// Root gives the command, which is accepted.
fn accept(rt: &(impl Threads + Abort + Sync), solo: &mut Solo, command: Command) {
    let request = given(command);
    let before = solo.version();
    let (_, version) = solo.ask(rt, &request).expect(rt, "memory");
    assert!(rt; before < version);
}

fn make_class(rt: &(impl Threads + Abort + Sync), solo: &mut Solo, name: &str) {
    let name = named(rt, name);
    accept(rt, solo, Command::CreatePc { name });
}

fn make(rt: &(impl Threads + Abort + Sync), solo: &mut Solo, kind: Kind, name: Name, into: &str) {
    let into = named(rt, into);
    accept(rt, solo, Command::Create { kind, name, into });
}

// Whoever is in the user attribute may read what is in the place.
fn share(
    rt: &(impl Threads + Abort + Alloc<A = Global> + Sync),
    solo: &mut Solo,
    ua: &str,
    at: Name,
) {
    let ua = named(rt, ua);
    let rights = only(rt, "read");
    accept(rt, solo, Command::Associate { ua, rights, at });
}

fn keep_caps(rt: &(impl Threads + Abort + Sync), solo: &mut Solo, user: Name) {
    let of = ReviewOf::Caps(user);
    accept(rt, solo, Command::Keep { of });
}

fn keep_entries(rt: &(impl Threads + Abort + Sync), solo: &mut Solo, element: Name) {
    let of = ReviewOf::Entries(element);
    accept(rt, solo, Command::Keep { of });
}

// Ann and bob are in `staff`, a memo is in `docs`, and whoever is in the one may read what is in the other.
fn make_office(rt: &(impl Threads + Abort + Alloc<A = Global> + Sync), solo: &mut Solo) {
    make_class(rt, solo, "files");
    make(rt, solo, Kind::Ua, named(rt, "staff"), "files");
    make(rt, solo, Kind::Oa, named(rt, "docs"), "files");
    make(rt, solo, Kind::Object, named(rt, "memo"), "docs");
    make(rt, solo, Kind::User, named(rt, "ann"), "staff");
    make(rt, solo, Kind::User, named(rt, "bob"), "staff");
    share(rt, solo, "staff", named(rt, "docs"));
}

// Process 0 may not read what is in `docs`, and then it may.
fn hold_and_lift(rt: &(impl Threads + Abort + Alloc<A = Global> + Sync), solo: &mut Solo) {
    let hold = Command::Prohibit {
        name: named(rt, "hold"),
        subject: Subject::Process(0),
        rights: only(rt, "read"),
        inc: only(rt, "docs"),
        exc: NameList::new(rt.alloc()),
        mode: Mode::All,
    };
    accept(rt, solo, hold);
    let name = named(rt, "hold");
    accept(rt, solo, Command::Lift { name });
}

fn unshare(rt: &(impl Threads + Abort + Sync), solo: &mut Solo) {
    let ua = named(rt, "staff");
    let at = named(rt, "docs");
    accept(rt, solo, Command::Dissociate { ua, at });
}

// So many questions were asked of the judge.
fn asked(rt: &impl Abort, solo: &Solo, count: u64) {
    assert_eq!(rt; solo.asked(), count);
}

// So many rows were written.
fn written(rt: &impl Abort, solo: &Solo, count: u64) {
    assert_eq!(rt; solo.written(), count);
}

// Of ann and bob with `docs` and the memo three pairs are of ann or of the memo, one of both.
#[test]
fn a_pair_of_two_reviews_is_judged_once(rt: HostRuntime) {
    let mut solo = Solo::opening(rt.alloc()).expect(&rt, "memory");
    make_office(&rt, &mut solo);
    keep_caps(&rt, &mut solo, named(&rt, "ann"));
    keep_entries(&rt, &mut solo, named(&rt, "memo"));
    hold_and_lift(&rt, &mut solo);
    asked(&rt, &solo, 0);
    unshare(&rt, &mut solo);
    asked(&rt, &solo, 3);
}

// One for the class and two for each of the five others; then those of `staff` and the two who are in it.
#[test]
fn rows_of_creations_and_of_an_assignment(rt: HostRuntime) {
    let mut solo = Solo::opening(rt.alloc()).expect(&rt, "memory");
    make_office(&rt, &mut solo);
    written(&rt, &solo, 11);
    make_class(&rt, &mut solo, "more");
    let from = named(&rt, "staff");
    let to = named(&rt, "more");
    accept(&rt, &mut solo, Command::Assign { from, to });
    written(&rt, &solo, 15);
    assert_eq!(rt; solo.live(), 10);
}

// The new attribute that the response makes is one more that root may have rights on.
#[test]
fn what_responses_change_is_judged(rt: HostRuntime) {
    let mut solo = Solo::opening(rt.alloc()).expect(&rt, "memory");
    give(&rt, &mut solo, request(&rt, None, Ask::Allow));
    keep_caps(&rt, &mut solo, named(&rt, "root"));
    let log = oblige(&rt, "log", "read", &[Deed::Make]);
    give(&rt, &mut solo, log);
    asked(&rt, &solo, 0);
    is_read(&rt, &mut solo, None, Fired(1), 4);
    asked(&rt, &solo, 1);
    written(&rt, &solo, 2);
}

// A letter and a number.
fn numbered(rt: &(impl Abort + Alloc<A = Global>), letter: &str, n: u32) -> Name {
    let text = format!(in rt.alloc(); "{letter}{n}").expect(rt, "memory");
    named(rt, text.as_str())
}

fn make_many(
    rt: &(impl Threads + Abort + Alloc<A = Global> + Sync),
    solo: &mut Solo,
    kind: Kind,
    letter: &str,
    count: u32,
    into: &str,
) {
    for n in 0..count {
        make(rt, solo, kind, numbered(rt, letter, n), into);
    }
}

fn share_many(rt: &(impl Threads + Abort + Alloc<A = Global> + Sync), solo: &mut Solo, count: u32) {
    for n in 0..count {
        share(rt, solo, "g", numbered(rt, "f", n));
    }
}

fn keep_many(rt: &(impl Threads + Abort + Alloc<A = Global> + Sync), solo: &mut Solo, count: u32) {
    for n in 0..count {
        keep_caps(rt, solo, numbered(rt, "a", n));
    }
}

// Each new object is judged once for each of the 64 users.
#[test]
fn a_thousand_objects_beside_sixty_four_lists(rt: HostRuntime) {
    let mut solo = Solo::opening(rt.alloc()).expect(&rt, "memory");
    make_class(&rt, &mut solo, "c");
    make(&rt, &mut solo, Kind::Ua, named(&rt, "g"), "c");
    make(&rt, &mut solo, Kind::Oa, named(&rt, "d"), "c");
    make_many(&rt, &mut solo, Kind::User, "a", 64, "g");
    make_many(&rt, &mut solo, Kind::Object, "f", 1000, "d");
    share_many(&rt, &mut solo, 1000);
    keep_many(&rt, &mut solo, 64);
    make_many(&rt, &mut solo, Kind::Object, "h", 1000, "d");
    assert!(rt; solo.version() == 3131);
    asked(&rt, &solo, 64000);
}
