//! What entries change in kept reviews. Root is in `pm_admins`, and may read what is in it once it is allowed to.

use super::responding::{Deed, is_read, oblige};
use super::*;
use pm_model::{Kind, Mode, ReviewOf, Subject};

// What concerns the attribute `staff` in `files`, in which nobody is, and the session 1; and the end of what root may read.
#[derive(Clone, Copy)]
enum Far {
    Staff,
    // Who is in `staff` may read what is in it, and then not.
    Share,
    Bar,
    Lift,
    Close,
    Forbid,
}

fn bar(rt: &(impl Abort + Alloc<A = Global>)) -> Command {
    Command::Prohibit {
        name: named(rt, "bar"),
        subject: Subject::Ua(named(rt, "staff")),
        rights: only(rt, "read"),
        inc: only(rt, "staff"),
        exc: NameList::new(rt.alloc()),
        mode: Mode::All,
    }
}

fn far_body(rt: &(impl Abort + Alloc<A = Global>), far: Far) -> Body {
    match far {
        Far::Staff => by_process_0(Command::Create {
            kind: Kind::Ua,
            name: named(rt, "staff"),
            into: named(rt, "files"),
        }),
        Far::Share => by_process_0(Command::Associate {
            ua: named(rt, "staff"),
            rights: only(rt, "read"),
            at: named(rt, "staff"),
        }),
        Far::Bar => by_process_0(bar(rt)),
        Far::Lift => by_process_0(Command::Lift {
            name: named(rt, "bar"),
        }),
        Far::Close => Body::CloseSession { session: 1 },
        Far::Forbid => by_process_0(Command::Dissociate {
            ua: named(rt, "pm_admins"),
            at: named(rt, "pm_admins"),
        }),
    }
}

// A request on kept reviews, or another one.
#[derive(Clone, Copy)]
enum OfKept {
    KeepCaps(&'static str),
    KeepEntries(&'static str),
    Drop(u32),
    List(u32),
    Changes(u32),
    Far(Far),
    Other(Ask),
}

fn kept_body(rt: &(impl Abort + Alloc<A = Global>), of_kept: OfKept) -> Body {
    match of_kept {
        OfKept::KeepCaps(user) => by_process_0(Command::Keep {
            of: ReviewOf::Caps(named(rt, user)),
        }),
        OfKept::KeepEntries(element) => by_process_0(Command::Keep {
            of: ReviewOf::Entries(named(rt, element)),
        }),
        OfKept::Drop(review) => by_process_0(Command::DropReview { review }),
        OfKept::List(review) => asked_by_process_0(Question::Kept { review }),
        OfKept::Changes(review) => asked_by_process_0(Question::Changes { review }),
        OfKept::Far(far) => far_body(rt, far),
        OfKept::Other(ask) => body(rt, ask),
    }
}

fn kept_request(rt: &(impl Abort + Alloc<A = Global>), of_kept: OfKept) -> Request {
    Request {
        after: None,
        body: kept_body(rt, of_kept),
    }
}

// An entry that leaves the list leaves its last change, and a review that is made has none.
static ENTRIES: &[(OfKept, Told, u64)] = &[
    (OfKept::KeepCaps("root"), Kept(0), 1),
    (OfKept::Changes(0), Changed(0, 0), 1),
    (OfKept::Other(Ask::Allow), Done, 2),
    (OfKept::List(0), Listed(2), 2),
    (OfKept::Changes(0), Changed(2, 2), 2),
    (OfKept::Other(Ask::Class("files")), Done, 3),
    (OfKept::Changes(0), Changed(2, 2), 3),
    (OfKept::KeepEntries("root"), Kept(1), 4),
    (OfKept::List(1), Listed(1), 4),
    (OfKept::Changes(1), Changed(0, 0), 4),
    (OfKept::Drop(0), Done, 5),
    (OfKept::Changes(0), Refused("unknown_review"), 5),
];

fn all_are_told(
    rt: &(impl Threads + Abort + Alloc<A = Global> + Sync),
    entries: &[(OfKept, Told, u64)],
) {
    let mut solo = Solo::opening(rt.alloc()).expect(rt, "memory");
    for (of_kept, want, version) in entries {
        let request = kept_request(rt, *of_kept);
        is_told(rt, &mut solo, request, *want, *version);
    }
}

#[test]
fn the_last_change_is_told(rt: HostRuntime) {
    all_are_told(&rt, ENTRIES);
}

// What touches neither what root may do nor who may do something to root leaves both lists, and what was told of them.
static FAR: &[(OfKept, Told, u64)] = &[
    (OfKept::KeepCaps("root"), Kept(0), 1),
    (OfKept::KeepEntries("root"), Kept(1), 2),
    (OfKept::Other(Ask::Allow), Done, 3),
    (OfKept::Other(Ask::Class("files")), Done, 4),
    (OfKept::Far(Far::Staff), Done, 5),
    (OfKept::Far(Far::Share), Done, 6),
    (OfKept::Other(Ask::Open("root")), Session(1), 7),
    (OfKept::Far(Far::Bar), Done, 8),
    (OfKept::Far(Far::Close), Done, 9),
    (OfKept::Far(Far::Lift), Done, 10),
    (OfKept::List(0), Listed(2), 10),
    (OfKept::Changes(0), Changed(3, 2), 10),
    (OfKept::List(1), Listed(1), 10),
    (OfKept::Changes(1), Changed(3, 1), 10),
    (OfKept::Far(Far::Forbid), Done, 11),
    (OfKept::List(0), Listed(0), 11),
    (OfKept::Changes(0), Changed(11, 2), 11),
    (OfKept::List(1), Listed(0), 11),
    (OfKept::Changes(1), Changed(11, 1), 11),
];

#[test]
fn what_is_far_from_kept_reviews_leaves_them(rt: HostRuntime) {
    all_are_told(&rt, FAR);
}

// What changed last in the first kept review is told so.
fn has_changed(
    rt: &(impl Threads + Abort + Alloc<A = Global> + Sync),
    solo: &mut Solo,
    at: u64,
    count: usize,
    version: u64,
) {
    let request = kept_request(rt, OfKept::Changes(0));
    is_told(rt, solo, request, Changed(at, count), version);
}

// What the response makes is told with the entry that it responds to.
#[test]
fn responses_are_told_of(rt: HostRuntime) {
    let mut solo = Solo::opening(rt.alloc()).expect(&rt, "memory");
    give(&rt, &mut solo, request(&rt, None, Ask::Allow));
    give(&rt, &mut solo, kept_request(&rt, OfKept::KeepCaps("root")));
    let log = oblige(&rt, "log", "read", &[Deed::Make]);
    give(&rt, &mut solo, log);
    has_changed(&rt, &mut solo, 0, 0, 3);
    is_read(&rt, &mut solo, None, Fired(1), 4);
    has_changed(&rt, &mut solo, 4, 1, 4);
}
