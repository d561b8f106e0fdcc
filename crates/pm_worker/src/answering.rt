//! A line that waits is answered by a seat.

ghost use Rattle.std.specs.Prelude.{◌≡◌, ◌≤◌, ◌+◌, ◌++◌, length, is_some, IsOk, OnOk, OnErr, IfOk, MatchOption};
ghost use Rattle.pm_model.specs.State.{element_at, name_numbered};
ghost use Rattle.pm_model.specs.Formed.{IsWellFormed};
ghost use Rattle.pm_model.specs.History.{IsReplayed};
ghost use Rattle.pm_model.specs.Text.{text};
ghost use Rattle.pm_model.specs.Nameable.{IsNameable};
ghost use Rattle.pm_model.specs.Solo.{asked_at};
ghost use Rattle.pm_model.specs.declared.requests.What.TheVariants as what;
ghost use Rattle.pm_print.specs.Growth.{reply_most};
ghost use Rattle.pm_session.specs.Streams.{HasReplyRoom};
ghost use Rattle.pm_session.specs.Taken.{shown, LeavesRest};
ghost use Rattle.pm_house.specs.Desks.{NeverFails};
ghost use Rattle.pm_house.specs.Seated.{Rests};
ghost use Rattle.pm_worker.specs.Answering.{next_asked, Speaks, Replies, Answers, StaysPut, Loses};

use crate::gates::{Gate, Phase};
use crate::shares::share_of;
use pm_house::{Home, House, Looked, Replied, Seat};
use pm_machine::Version;
use pm_model::{Asked, BadLine, Keep, LineEvent, Memory, Reply, Request, What};
use pm_read::read_request;
use pm_session::Session;
use std::alloc::Global;
use std::sync::Wait;
use std::thread::Threads;

// The desk's answer.
#[tactic(auto, using(crate::proofs::Speaking::submits_speaks))]
fn submit<V: Version, K: Keep + Drop, H: Home, R: Threads + Wait + Sync>(
    rt: &R,
    alloc: Global,
    house: &House<V, K, H>,
    seat: &mut Seat<V, H>,
    request: &Request,
) -> Result<Replied, Memory>
    ensures ok { IfOk result (λ r. Speaks (NeverFails K.faults) seat.old seat.new (what.Request request.now) r.reply r.version) }
    ensures err { OnErr result (Rests seat.old seat.new) }
{
    seat.submit(rt, alloc, house, request)
}

// The answer by a look, or the desk's.
#[tactic(auto, using(crate::proofs::Speaking::looks_speaks, crate::proofs::Speaking::rests_speaks, pm_house::proofs::Sitting::rests_then))]
fn ask<V: Version, K: Keep + Drop, H: Home, R: Threads + Wait + Sync>(
    rt: &R,
    alloc: Global,
    house: &House<V, K, H>,
    seat: &mut Seat<V, H>,
    request: &Request,
) -> Result<Replied, Memory>
    ensures ok { IfOk result (λ r. Speaks (NeverFails K.faults) seat.old seat.new (what.Request request.now) r.reply r.version) }
    ensures err { OnErr result (Rests seat.old seat.new) }
{
    match seat.look(rt, request) {
        Ok(Looked::Answer { reply, version }) => Ok(Replied { reply, version }),
        Ok(Looked::GoDesk) => submit(rt, alloc, house, seat, request),
        Err(Memory) => Err(Memory),
    }
}

// The answer to a line that is no request.
#[tactic(auto, using(crate::proofs::Speaking::bad_speaks))]
fn bad<V: Version, H: Home>(seat: &mut Seat<V, H>, bad: &BadLine) -> Replied
    ensures { Speaks (Unit {0}) seat.old seat.new (what.Bad bad.now) result.reply result.version }
{
    let version = seat.version();
    Replied {
        reply: Reply::Bad(*bad),
        version,
    }
}

// The seat's answer to what is asked.
#[tactic(auto, using(crate::proofs::Speaking::speaks_always))]
fn speak<V: Version, K: Keep + Drop, H: Home, R: Threads + Wait + Sync>(
    rt: &R,
    alloc: Global,
    house: &House<V, K, H>,
    seat: &mut Seat<V, H>,
    what: &What,
) -> Result<Replied, Memory>
    ensures ok { IfOk result (λ r. Speaks (NeverFails K.faults) seat.old seat.new what.now r.reply r.version) }
    ensures err { OnErr result (Rests seat.old seat.new) }
{
    match what {
        What::Bad(form) => Ok(bad(seat, form)),
        What::Request(request) => ask(rt, alloc, house, seat, request),
    }
}

// Appends the line of what the seat has said.
fn put<V: Version, H: Home>(
    session: &mut Session,
    id: Option<u64>,
    seat: &Seat<V, H>,
    spoken: &Replied,
) -> Result<(), Memory>
    requires { IsNameable (λ n. is_some (element_at seat.now.machine.graph.elements n)) spoken.now.reply }
    ensures ok { OnOk result (session.new.output ≡ session.old.output ++ text id spoken.now.version (name_numbered seat.now.machine.graph.elements) spoken.now.reply) }
    ensures err { OnErr result (session.new.output ≡ session.old.output) }
    ensures fits { length session.old.output + reply_most spoken.now.reply ≤ 16384 → IsOk result }
    ensures waiting { session.new.waiting ≡ session.old.waiting }
{
    let shown = seat.shown();
    shown.known();
    session.reply(id, spoken.version, &spoken.reply, shown)
}

// What each seat keeps of the version that it shows.
fn known<V: Version, H: Home>(seat: &Seat<V, H>)
    ensures replayed { IsReplayed seat.now.machine }
    ensures formed { IsWellFormed seat.now.machine.graph }
{
    seat.shown().known();
}

// Answers what was asked. With room for the reply there is no want of memory once the seat has answered, but for a
// review's list, which the seat was told of nothing for.
#[tactic(auto, using(crate::proofs::Speaking::speaks_nameable, crate::proofs::Speaking::speaks_replies, crate::proofs::Speaking::unprinted_rests))]
fn answer<V: Version, K: Keep + Drop, H: Home, R: Threads + Wait + Sync>(
    rt: &R,
    alloc: Global,
    house: &House<V, K, H>,
    seat: &mut Seat<V, H>,
    session: &mut Session,
    asked: &Asked,
) -> Result<(), Memory>
    requires { HasReplyRoom session.old.output }
    ensures ok { OnOk result (Replies (NeverFails K.faults) seat.old seat.new asked.now session.old.output session.new.output) }
    ensures err { OnErr result (Rests seat.old seat.new) }
    ensures kept { OnErr result (session.new.output ≡ session.old.output) }
    ensures waiting { session.new.waiting ≡ session.old.waiting }
{
    let spoken = speak(rt, alloc, house, seat, &asked.what)?;
    known(seat);
    put(session, asked.id, seat, &spoken)
}

fn asked_by(alloc: Global, event: LineEvent) -> Result<Asked, Memory>
    ensures { IfOk result (λ a. a ≡ asked_at (shown event.entry)) }
{
    match event {
        LineEvent::Line(line) => read_request(alloc, line),
        LineEvent::TooLong => Ok(Asked {
            id: None,
            what: What::Bad(BadLine::TooLong),
        }),
    }
}

// What the first line that waits asks; it waits no more.
fn take(alloc: Global, session: &mut Session) -> Result<Option<Asked>, Memory>
    ensures asked { IfOk result (λ asked. asked ≡ next_asked session.old.waiting) }
    ensures rest { LeavesRest session.old session.new }
{
    match session.take() {
        None => Ok(None),
        Some(event) => {
            let asked = asked_by(alloc, event)?;
            Ok(Some(asked))
        }
    }
}

/// Answers the first line that waits, and says how much of a turn's share it takes, if there was one. On Memory it may wait no more, and
/// the seat was told nothing: its request wasn't accepted.
pub(crate) fn answer_line<V: Version, K: Keep + Drop, H: Home, G: Gate, R: Threads + Wait + Sync>(
    rt: &R,
    alloc: Global,
    house: &House<V, K, H>,
    seat: &mut Seat<V, H>,
    session: &mut Session,
    gate: &G,
) -> Result<Option<u32>, Memory>
    requires { HasReplyRoom session.old.output }
    ensures ok { IfOk result (λ share. MatchOption share (StaysPut seat.old seat.new session.old session.new)
        (Answers (NeverFails K.faults) seat.old seat.new session.old session.new)) }
    ensures err { OnErr result (Rests seat.old seat.new) }
    ensures lost { OnErr result (Loses session.old.waiting session.new.waiting) }
    ensures kept { OnErr result (session.new.output ≡ session.old.output) }
{
    seat.still();
    match take(alloc, session)? {
        None => Ok(None),
        Some(asked) => {
            gate.pass(seat.number(), Phase::Taken);
            answer(rt, alloc, house, seat, session, &asked)?;
            gate.pass(seat.number(), Phase::Replied);
            Ok(Some(share_of(&asked.what)))
        }
    }
}
