//! Requests from the opening state on, with answers worked out by hand.

use Told::{
    Ahead, Changed, Done, Fired, Granted, Kept, Listed, Process, Refused, Session, Stopped,
};
use pm_machine::{Answerer, Glance, Stepped};
use pm_model::{
    Body, Command, Memory, Name, NameList, Question, Reason, Refusal, Reply, Request, Shown,
};
use pm_state::State;
use pm_step::{Solo, glance, step};
use std::alloc::Global;
use std::process::Abort;
use std::test::Fail;
use std::thread::Threads;

mod counting;
mod responding;
mod settling;

// What a reply tells.
#[derive(Clone, Copy, Debug, PartialEq, Eq)]
enum Told {
    Done,
    Session(u32),
    Process(u32),
    // A review is kept by this number.
    Kept(u32),
    Granted,
    // An entry to which so many obligations responded.
    Fired(u32),
    // A review's list of so many.
    Listed(usize),
    // The entry of this version changed so much in a kept review.
    Changed(u64, usize),
    Ahead,
    Refused(&'static str),
    // The action of this number was refused.
    Stopped(u32),
}

fn word(why: &Refusal) -> &'static str {
    match why {
        Refusal::UnknownProcess => "unknown_process",
        Refusal::Denied {
            reason: Reason::Class(_),
            ..
        } => "class",
        Refusal::NameTaken => "name_taken",
        Refusal::BadKinds => "bad_kinds",
        Refusal::UnknownReview => "unknown_review",
        _ => "another",
    }
}

fn what(reply: &Reply) -> Told {
    match reply {
        Reply::Done { fired: 0, shown } => match shown {
            Shown::Nothing => Done,
            Shown::Session(number) => Session(*number),
            Shown::Process(number) => Process(*number),
            Shown::Review(number) => Kept(*number),
        },
        Reply::Granted { fired: 0 } => Granted,
        Reply::Done { fired, .. } | Reply::Granted { fired } => Fired(*fired),
        Reply::Caps { list } | Reply::Entries { list } | Reply::Kept { list } => Listed(list.len()),
        Reply::Survey { counts, .. } => Listed(counts.len()),
        Reply::Changes { at, list } => Changed(*at, list.len()),
        Reply::Ahead => Ahead,
        Reply::Refused(why) => Refused(word(why)),
        Reply::ResponseRefused { action, .. } => Stopped(*action),
        Reply::Bad(_) | Reply::KeepFault => Refused("another"),
    }
}

// A request. Process 0 gives the commands and asks for the reviews.
#[derive(Clone, Copy)]
enum Ask {
    Version,
    Class(&'static str),
    // Who is in `pm_admins` may read what is in it.
    Allow,
    Read(u32, &'static str),
    Open(&'static str),
    Start(u32),
    Caps(&'static str),
    Entries(&'static str),
    Survey(&'static str),
}

fn named(rt: &impl Abort, text: &str) -> Name {
    Name::new(text.as_bytes()).expect(rt, "a name")
}

fn only(rt: &(impl Abort + Alloc<A = Global>), text: &str) -> NameList {
    let mut names = NameList::new(rt.alloc());
    names.push(named(rt, text)).expect(rt, "memory");
    names
}

fn by_process_0(command: Command) -> Body {
    Body::Admin {
        process: 0,
        command,
    }
}

fn asked_by_process_0(question: Question) -> Body {
    Body::Review {
        process: 0,
        question,
    }
}

fn body(rt: &(impl Abort + Alloc<A = Global>), ask: Ask) -> Body {
    match ask {
        Ask::Version => Body::Version,
        Ask::Class(name) => by_process_0(Command::CreatePc {
            name: named(rt, name),
        }),
        Ask::Allow => by_process_0(Command::Associate {
            ua: named(rt, "pm_admins"),
            rights: only(rt, "read"),
            at: named(rt, "pm_admins"),
        }),
        Ask::Read(process, target) => Body::Access {
            process,
            right: named(rt, "read"),
            target: named(rt, target),
        },
        Ask::Open(user) => Body::OpenSession {
            user: named(rt, user),
        },
        Ask::Start(session) => Body::StartProcess { session },
        Ask::Caps(user) => asked_by_process_0(Question::Caps {
            user: named(rt, user),
        }),
        Ask::Entries(element) => asked_by_process_0(Question::Entries {
            element: named(rt, element),
        }),
        Ask::Survey(user) => asked_by_process_0(Question::Survey {
            users: only(rt, user),
        }),
    }
}

fn request(rt: &(impl Abort + Alloc<A = Global>), after: Option<u64>, ask: Ask) -> Request {
    Request {
        after,
        body: body(rt, ask),
    }
}

// What is told by a request from seat 7 with number 3, and the version of the next state, if any.
fn stepped(
    rt: &(impl Threads + Abort + Sync),
    state: &State,
    request: &Request,
) -> (Told, Option<u64>) {
    match step(rt, state, 7, 3, request).expect(rt, "memory") {
        Stepped::Accepted(next, reply) => (what(&reply), Some(next.version())),
        Stepped::Answered(reply) => (what(&reply), None),
    }
}

// What is asked of the opening state, with what is told and the version of the next state.
static STEPS: &[(Option<u64>, Ask, Told, Option<u64>)] = &[
    (Some(0), Ask::Version, Done, None),
    (Some(1), Ask::Class("files"), Ahead, None),
    (None, Ask::Class("pm"), Refused("name_taken"), None),
    (None, Ask::Read(1, "pm"), Refused("unknown_process"), None),
    (None, Ask::Read(0, "pm"), Refused("class"), None),
    (Some(0), Ask::Class("files"), Done, Some(1)),
    (None, Ask::Start(0), Process(1), Some(1)),
    (None, Ask::Open("root"), Session(1), Some(1)),
];

#[test]
fn steps_from_the_opening(rt: HostRuntime) {
    let state = State::opening(rt.alloc()).expect(&rt, "memory");
    for (after, ask, want, version) in STEPS {
        let came = stepped(&rt, &state, &request(&rt, *after, *ask));
        assert_eq!(rt; came, (*want, *version));
    }
}

fn answer(rt: &(impl Threads + Abort + Sync), solo: &mut Solo, request: &Request) -> (Told, u64) {
    let (reply, version) = solo.ask(rt, request).expect(rt, "memory");
    (what(&reply), version)
}

// Gives a request, whatever it is told.
fn give(rt: &(impl Threads + Abort + Sync), solo: &mut Solo, request: Request) {
    answer(rt, solo, &request);
}

// A request is told this, at this version.
fn is_told(
    rt: &(impl Threads + Abort + Sync),
    solo: &mut Solo,
    request: Request,
    told: Told,
    version: u64,
) {
    assert_eq!(rt; answer(rt, solo, &request), (told, version));
}

// What is asked of one machine, with what is told and the version then. Root may review what is live; it may
// read itself and `pm_admins`, once it is allowed to.
static REQUESTS: &[(Ask, Told, u64)] = &[
    (Ask::Caps("root"), Listed(0), 0),
    (Ask::Allow, Done, 1),
    (Ask::Read(0, "root"), Granted, 1),
    (Ask::Caps("root"), Listed(2), 1),
    (Ask::Entries("pm_admins"), Listed(1), 1),
    (Ask::Entries("pm"), Listed(0), 1),
    (Ask::Survey("root"), Listed(1), 1),
    (Ask::Caps("pm"), Refused("bad_kinds"), 1),
];

#[test]
fn reviews_leave_the_version(rt: HostRuntime) {
    let mut solo = Solo::opening(rt.alloc()).expect(&rt, "memory");
    for (ask, want, version) in REQUESTS {
        is_told(&rt, &mut solo, request(&rt, None, *ask), *want, *version);
    }
}
