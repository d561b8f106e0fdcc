//! Requests to which obligations respond: root is in `pm_admins`, and whoever is in it may read what is in it.

use super::*;
use pm_model::{Act, Action, ActionList, Awaited, GuardList, Kind, Response, Term, When};

// What an action does: it makes a user attribute of a new name in `pm_admins`; it deletes `pm`, which can't be.
#[derive(Clone, Copy)]
pub(super) enum Deed {
    Make,
    Spoil,
}

fn act(rt: &impl Abort, deed: Deed) -> Act {
    match deed {
        Deed::Make => Act::Create {
            kind: Kind::Ua,
            name: Term::Fresh,
            into: Term::Named(named(rt, "pm_admins")),
        },
        Deed::Spoil => Act::Delete {
            name: Term::Named(named(rt, "pm")),
        },
    }
}

fn response(rt: &(impl Abort + Alloc<A = Global>), deeds: &[Deed]) -> Response {
    let mut actions = ActionList::new(rt.alloc());
    for deed in deeds {
        let action = Action {
            guards: GuardList::new(rt.alloc()),
            act: act(rt, *deed),
        };
        actions.push(action).expect(rt, "memory");
    }
    Response::new(actions).expect(rt, "a response")
}

// Let this be done, by root's authority, whenever such an event is raised on what is in `pm_admins`.
pub(super) fn oblige(
    rt: &(impl Abort + Alloc<A = Global>),
    name: &str,
    on: &str,
    deeds: &[Deed],
) -> Request {
    let when = When {
        on: named(rt, on),
        user: None,
        target: Some(named(rt, "pm_admins")),
    };
    let command = Command::Oblige {
        name: named(rt, name),
        when: Awaited::new(rt.alloc(), when).expect(rt, "memory"),
        response: response(rt, deeds),
    };
    Request {
        after: None,
        body: by_process_0(command),
    }
}

fn withdraw(rt: &impl Abort, name: &str) -> Request {
    let name = named(rt, name);
    Request {
        after: None,
        body: by_process_0(Command::Withdraw { name }),
    }
}

// What a look at the state tells; None where the desk is needed.
fn glanced(rt: &(impl Threads + Abort + Sync), solo: &Solo, request: &Request) -> Option<Told> {
    match glance(rt, solo.state(), request).expect(rt, "memory") {
        Glance::Answer(reply) => Some(what(&reply)),
        Glance::NeedsDesk => None,
    }
}

fn has(rt: &impl Abort, solo: &Solo, name: &str) -> bool {
    let name = named(rt, name);
    solo.state().graph().elements().find(name).is_some()
}

// What comes of root's reading itself, first by a look.
pub(super) fn reading(
    rt: &(impl Threads + Abort + Alloc<A = Global> + Sync),
    solo: &mut Solo,
) -> (Option<Told>, Told, u64) {
    let request = request(rt, None, Ask::Read(0, "root"));
    let seen = glanced(rt, solo, &request);
    let (came, version) = answer(rt, solo, &request);
    (seen, came, version)
}

// Root's reading itself comes to this.
pub(super) fn is_read(
    rt: &(impl Threads + Abort + Alloc<A = Global> + Sync),
    solo: &mut Solo,
    seen: Option<Told>,
    came: Told,
    version: u64,
) {
    assert_eq!(rt; reading(rt, solo), (seen, came, version));
}

#[test]
fn an_access_is_an_entry_where_one_responds(rt: HostRuntime) {
    let mut solo = Solo::opening(rt.alloc()).expect(&rt, "memory");
    give(&rt, &mut solo, request(&rt, None, Ask::Allow));
    is_read(&rt, &mut solo, Some(Granted), Granted, 1);
    let log = oblige(&rt, "log", "read", &[Deed::Make]);
    give(&rt, &mut solo, log);
    is_read(&rt, &mut solo, None, Fired(1), 3);
    assert!(rt; has(&rt, &solo, "x3.1.1"));
    let bad = oblige(&rt, "bad", "read", &[Deed::Make, Deed::Spoil]);
    give(&rt, &mut solo, bad);
    is_read(&rt, &mut solo, None, Stopped(2), 4);
    assert!(rt; !has(&rt, &solo, "x5.1.1"));
}

#[test]
fn a_withdrawn_one_does_not_respond(rt: HostRuntime) {
    let mut solo = Solo::opening(rt.alloc()).expect(&rt, "memory");
    let first = oblige(&rt, "first", "withdraw", &[Deed::Make]);
    give(&rt, &mut solo, first);
    let second = oblige(&rt, "second", "withdraw", &[Deed::Make]);
    give(&rt, &mut solo, second);
    is_told(&rt, &mut solo, withdraw(&rt, "first"), Fired(1), 3);
    assert!(rt; has(&rt, &solo, "x3.1.1"));
    assert!(rt; !has(&rt, &solo, "x3.2.1"));
}
