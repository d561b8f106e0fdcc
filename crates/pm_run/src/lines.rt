//! The whole lines that wait are answered, and their replies written together.
ghost use Rattle.std.specs.Prelude.{◌≡◌, ◌≤◌, ◌<◌, ◌+◌, ◌++◌, [], None, Err, length, drop, IfOk, OnOk, OnErr};
ghost use Rattle.std.specs.Io.{WritesAtMost};
ghost use Rattle.std.specs.Io.KnownBytes.{Appends, WriteAppends};
ghost use Rattle.pm_model.specs.Causes.{HasCause};
ghost use Rattle.pm_model.specs.Lines.{cut};
ghost use Rattle.pm_model.specs.Solo.{asked_at, answer_what, line_told};
ghost use Rattle.pm_model.specs.Answer.{after};
ghost use Rattle.pm_model.specs.History.{state_of};
ghost use Rattle.pm_session.specs.Streams.{HasReplyRoom};
ghost use Rattle.pm_session.specs.Taken.{shown, rest_of};
ghost use Rattle.pm_run.specs.Wrote.{Wrote, WroteWhole, WrotePart, Moved, Answered, AnsweredWhole};
ghost use Rattle.pm_run.specs.Coming.{coming, ahead};
ghost use Rattle.pm_run.specs.Parts.{next_asked, HasStopCause};

use pm_machine::Answerer;
use pm_model::{Asked, BadLine, Failed, LineEvent, Memory, Sink, What};
use pm_read::read_request;
use pm_session::Session;
use std::alloc::Global;
use std::thread::Threads;

/// Why answering stopped.
#[derive(Clone, Copy, Debug, PartialEq, Eq)]
pub(crate) enum Stop {
    WriteFault,
    Memory,
}

impl From<Memory> for Stop {
    ghost use Rattle.std.specs.Prelude.{◌≡◌};
    ghost use Rattle.pm_run.specs.declared.lines.Stop.TheVariants as stop;

    ghost from_gives = { λ _ e. e ≡ stop.Memory };

    fn from(_: Memory) -> Stop {
        Stop::Memory
    }
}

impl From<Failed> for Stop {
    ghost use Rattle.std.specs.Prelude.{◌≡◌};
    ghost use Rattle.pm_run.specs.declared.lines.Stop.TheVariants as stop;

    ghost from_gives = { λ _ e. e ≡ stop.WriteFault };

    fn from(_: Failed) -> Stop {
        Stop::WriteFault
    }
}

fn rest(bytes: &[u8], from: usize) -> &[u8]
    requires { from ≤ length bytes.now }
    ensures { result.now ≡ drop from bytes.now }
{
    &bytes[from..]
}

// One write, which takes at least a byte.
fn write_some<O: Sink>(out: &mut O, bytes: &[u8]) -> Result<usize, Failed>
    requires { 0 < length bytes.now }
    ensures some { IfOk result (λ n. 0 < n) }
    ensures bound { WritesAtMost result bytes.now }
    ensures bytes { WriteAppends (O.taken out.old) (O.taken out.new) result bytes.now }
    ensures cause { HasCause (O.faults out.old) (O.faults out.new) result }
{
    match out.write(bytes)? {
        0 => Err(Failed),
        count => Ok(count),
    }
}

/// Writes the bytes whole.
pub fn write_all<O: Sink>(out: &mut O, bytes: &[u8]) -> Result<(), Failed>
    ensures ok { OnOk result (Appends (O.taken out.old) (O.taken out.new) bytes.now) }
    ensures err { OnErr result (WrotePart (O.taken out.old) (O.taken out.new) (λ _. bytes.now)) }
    ensures cause { HasCause (O.faults out.old) (O.faults out.new) result }
{
    let mut sent = 0;
    while sent < bytes.len() {
        let count = write_some(out, rest(bytes, sent))?;
        sent += count;
    }
    Ok(())
}

fn asked_by(alloc: Global, event: LineEvent) -> Result<Asked, Memory>
    ensures { IfOk result (λ a. a ≡ asked_at (shown event.entry)) }
{
    match event {
        LineEvent::Line(line) => read_request(alloc, line),
        LineEvent::TooLong => Ok(Asked {
            id: None,
            what: What::Bad(BadLine::TooLong),
        }),
    }
}

fn next_asked(alloc: Global, session: &mut Session) -> Result<Option<Asked>, Memory>
    ensures asked { IfOk result (λ asked. asked ≡ next_asked session.old.waiting) }
    ensures waiting { session.new.waiting ≡ rest_of session.old.waiting (cut session.old.waiting) }
    ensures output { session.new.output ≡ session.old.output }
{
    match session.take() {
        None => Ok(None),
        Some(event) => {
            let asked = asked_by(alloc, event)?;
            Ok(Some(asked))
        }
    }
}

// With room for the reply there is no want of memory once the request was asked, but for a review's list, which leaves
// the state.
fn answer<M: Answerer, R: Threads + Sync>(
    rt: &R,
    session: &mut Session,
    machine: &mut M,
    asked: Asked,
) -> Result<(), Memory>
    requires { HasReplyRoom session.old.output }
    ensures output { OnOk result (session.new.output ≡ session.old.output ++ line_told asked.id (state_of (M.machine machine.old)) (answer_what (state_of (M.machine machine.old)) asked.what)) }
    ensures state { OnOk result (state_of (M.machine machine.new) ≡ after (state_of (M.machine machine.old)) (answer_what (state_of (M.machine machine.old)) asked.what)) }
    ensures err { OnErr result (state_of (M.machine machine.new) ≡ state_of (M.machine machine.old)) }
    ensures kept { OnErr result (session.new.output ≡ session.old.output) }
    ensures waiting { session.new.waiting ≡ session.old.waiting }
{
    match &asked.what {
        What::Bad(bad) => session.bad(asked.id, machine.version(), bad),
        What::Request(request) => {
            let (reply, version) = match machine.ask(rt, request) {
                Ok(told) => told,
                Err(Memory) => return Err(Memory),
            };
            session.reply(asked.id, version, &reply, machine)
        }
    }
}

fn send<O: Sink>(session: &mut Session, out: &mut O) -> Result<(), Failed>
    ensures ok { OnOk result (Appends (O.taken out.old) (O.taken out.new) session.old.output) }
    ensures sent { OnOk result (session.new.output ≡ []) }
    ensures err { OnErr result (WrotePart (O.taken out.old) (O.taken out.new) (λ _. session.old.output)) }
    ensures cause { HasCause (O.faults out.old) (O.faults out.new) result }
    ensures waiting { session.new.waiting ≡ session.old.waiting }
{
    write_all(out, session.out())?;
    let count = session.out().len();
    session.sent(count);
    Ok(())
}

// Room for a reply: where it is lacking, what stands in the output is written first.
fn make_room<O: Sink>(session: &mut Session, out: &mut O) -> Result<(), Failed>
    ensures ok { OnOk result (Moved (O.taken out.old) (O.taken out.new) session.old.output session.new.output) }
    ensures room { OnOk result (HasReplyRoom session.new.output) }
    ensures err { OnErr result (WrotePart (O.taken out.old) (O.taken out.new) (λ _. session.old.output)) }
    ensures cause { HasCause (O.faults out.old) (O.faults out.new) result }
    ensures waiting { session.new.waiting ≡ session.old.waiting }
{
    if session.has_room() {
        return Ok(());
    }
    send(session, out)
}

// Answers each whole line that waits. Replies are written only to make room for others, so the last
// of them stand in the output, want of memory or not.
fn answer_waiting<M: Answerer, O: Sink, R: Threads + Sync>(
    rt: &R,
    alloc: Global,
    session: &mut Session,
    machine: &mut M,
    out: &mut O,
) -> Result<(), Stop>
    requires { session.old.output ≡ [] }
    ensures ok { OnOk result (Answered (O.taken out.old) (O.taken out.new) session.new.output (state_of (M.machine machine.old)) (state_of (M.machine machine.new))
        (coming session.old.waiting) (coming session.new.waiting)) }
    ensures drained { OnOk result (cut session.new.waiting ≡ None) }
    ensures fault { result ≡ Err Stop.WriteFault
        → WrotePart (O.taken out.old) (O.taken out.new) (ahead (state_of (M.machine machine.old)) (coming session.old.waiting)) }
    ensures memory { result ≡ Err Stop.Memory
        → AnsweredWhole (O.taken out.old) (O.taken out.new) session.new.output (state_of (M.machine machine.old)) (state_of (M.machine machine.new)) (coming session.old.waiting) }
    ensures cause { HasStopCause (O.faults out.old) (O.faults out.new) result }
{
    while let Some(asked) = next_asked(alloc, session)? {
        make_room(session, out)?;
        answer(rt, session, machine, asked)?;
    }
    Ok(())
}

/// Answers each whole line that waits. No reply is left unwritten but after a write fault.
pub(crate) fn answer_lines<M: Answerer, O: Sink, R: Threads + Sync>(
    rt: &R,
    alloc: Global,
    session: &mut Session,
    machine: &mut M,
    out: &mut O,
) -> Result<(), Stop>
    requires { session.old.output ≡ [] }
    ensures ok { OnOk result (Wrote (O.taken out.old) (O.taken out.new) (state_of (M.machine machine.old)) (state_of (M.machine machine.new))
        (coming session.old.waiting) (coming session.new.waiting)) }
    ensures drained { OnOk result (cut session.new.waiting ≡ None) }
    ensures sent { OnOk result (session.new.output ≡ []) }
    ensures fault { result ≡ Err Stop.WriteFault
        → WrotePart (O.taken out.old) (O.taken out.new) (ahead (state_of (M.machine machine.old)) (coming session.old.waiting)) }
    ensures memory { result ≡ Err Stop.Memory
        → WroteWhole (O.taken out.old) (O.taken out.new) (state_of (M.machine machine.old)) (state_of (M.machine machine.new)) (coming session.old.waiting) }
    ensures cause { HasStopCause (O.faults out.old) (O.faults out.new) result }
{
    let answered = answer_waiting(rt, alloc, session, machine, out);
    if matches!(answered, Err(Stop::WriteFault)) {
        return answered;
    }
    send(session, out)?;
    answered
}
