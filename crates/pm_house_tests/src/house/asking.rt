//! What seats ask in tests, and what they are told.

use pm_house::{Home, House, Looked, Seat};
use pm_io::NoKeep;
use pm_machine::Version;
use pm_model::{Body, Command, ElementId, Kind, Name, NameList, Reason, Refusal, Reply, Request};
use std::alloc::Global;
use std::process::Abort;
use std::sync::Wait;
use std::thread::Threads;

/// What a reply tells.
#[derive(Clone, Copy, Debug, PartialEq, Eq)]
pub(crate) enum Told {
    Done,
    /// The class of this number isn't met.
    Lacks(u32),
    Another,
}

fn what(reply: &Reply) -> Told {
    match reply {
        Reply::Done { .. } => Told::Done,
        Reply::Refused(
            Refusal::Denied {
                reason: Reason::Class(ElementId(class)),
                ..
            },
        ) => Told::Lacks(*class),
        _ => Told::Another,
    }
}

/// A request. Process 0 gives the commands.
#[derive(Clone, Copy)]
pub(crate) enum Ask {
    Class(&'static str),
    Make(Kind, &'static str, &'static str),
    /// Who is in the first may read what is in the second.
    Allow(&'static str, &'static str),
    /// No longer.
    Forbid(&'static str, &'static str),
    Open(&'static str),
    Start(u32),
    Read(u32, &'static str),
}

fn named(rt: &impl Abort, text: &str) -> Name {
    Name::new(text.as_bytes()).expect(rt, "a name")
}

fn only(rt: &(impl Abort + Alloc<A = Global>), text: &str) -> NameList {
    let mut names = NameList::new(rt.alloc());
    names.push(named(rt, text)).expect(rt, "memory");
    names
}

fn by_process_0(command: Command) -> Body {
    Body::Admin {
        process: 0,
        command,
    }
}

fn body(rt: &(impl Abort + Alloc<A = Global>), ask: Ask) -> Body {
    match ask {
        Ask::Class(name) => by_process_0(Command::CreatePc {
            name: named(rt, name),
        }),
        Ask::Make(kind, name, into) => by_process_0(Command::Create {
            kind,
            name: named(rt, name),
            into: named(rt, into),
        }),
        Ask::Allow(ua, at) => by_process_0(Command::Associate {
            ua: named(rt, ua),
            rights: only(rt, "read"),
            at: named(rt, at),
        }),
        Ask::Forbid(ua, at) => by_process_0(Command::Dissociate {
            ua: named(rt, ua),
            at: named(rt, at),
        }),
        Ask::Open(user) => Body::OpenSession {
            user: named(rt, user),
        },
        Ask::Start(session) => Body::StartProcess { session },
        Ask::Read(process, target) => Body::Access {
            process,
            right: named(rt, "read"),
            target: named(rt, target),
        },
    }
}

pub(crate) fn request(rt: &(impl Abort + Alloc<A = Global>), ask: Ask) -> Request {
    Request {
        after: None,
        body: body(rt, ask),
    }
}

/// What makes a policy by which `ann` and `bob` may read `memo`, and then may not.
pub(crate) fn policy(n: u32) -> Ask {
    match n {
        0 => Ask::Class("files"),
        1 => Ask::Make(Kind::Ua, "staff", "files"),
        2 => Ask::Make(Kind::Oa, "docs", "files"),
        3 => Ask::Make(Kind::User, "ann", "staff"),
        4 => Ask::Make(Kind::User, "bob", "staff"),
        5 => Ask::Make(Kind::Object, "memo", "docs"),
        6 => Ask::Allow("staff", "docs"),
        7 => Ask::Open("ann"),
        8 => Ask::Start(1),
        9 => Ask::Open("bob"),
        10 => Ask::Start(2),
        _ => Ask::Forbid("staff", "docs"),
    }
}

/// What the desk tells, and the version that it names.
pub(crate) fn submit<V: Version, H: Home, R: Threads + Wait + Abort + Alloc<A = Global> + Sync>(
    rt: &R,
    house: &House<V, NoKeep, H>,
    seat: &mut Seat<V, H>,
    request: &Request,
) -> (Told, u64) {
    let replied = seat
        .submit(rt, rt.alloc(), house, request)
        .expect(rt, "memory");
    (what(&replied.reply), replied.version)
}

/// The desk tells this, at this version.
pub(crate) fn is_told<V: Version, H: Home, R: Threads + Wait + Abort + Alloc<A = Global> + Sync>(
    rt: &R,
    house: &House<V, NoKeep, H>,
    seat: &mut Seat<V, H>,
    request: &Request,
    told: Told,
    version: u64,
) {
    assert_eq!(rt; submit(rt, house, seat, request), (told, version));
}

/// What a look tells, and the version that it names; None where the desk is needed.
pub(crate) fn look<V: Version, H: Home, R: Threads + Abort + Sync>(
    rt: &R,
    seat: &mut Seat<V, H>,
    request: &Request,
) -> Option<(Told, u64)> {
    match seat.look(rt, request).expect(rt, "memory") {
        Looked::Answer { reply, version } => Some((what(&reply), version)),
        Looked::GoDesk => None,
    }
}

/// A look tells this.
pub(crate) fn is_seen<V: Version, H: Home, R: Threads + Abort + Sync>(
    rt: &R,
    seat: &mut Seat<V, H>,
    request: &Request,
    told: Option<(Told, u64)>,
) {
    assert_eq!(rt; look(rt, seat, request), told);
}

/// Looks so many times, and says whether no version was below the one before.
pub(crate) fn never_falls<V: Version, H: Home>(seat: &mut Seat<V, H>, turns: u64) -> bool {
    for _ in 0..turns {
        let before = seat.shown().version();
        if seat.version() < before {
            return false;
        }
    }
    true
}

/// Starts so many processes, and says whether each was started.
pub(crate) fn start_processes<
    V: Version,
    H: Home,
    R: Threads + Wait + Abort + Alloc<A = Global> + Sync,
>(rt: &R, house: &House<V, NoKeep, H>, seat: &mut Seat<V, H>, count: u64) -> bool {
    for _ in 0..count {
        let (told, _) = submit(rt, house, seat, &request(rt, Ask::Start(0)));
        if told != Told::Done {
            return false;
        }
    }
    true
}
