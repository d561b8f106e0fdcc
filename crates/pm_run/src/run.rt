//! A run over a source, piece after piece.
ghost use Rattle.std.specs.Prelude.{◌≡◌, ◌≢◌, ◌≤◌, ◌<◌, ◌-◌, ℕ, [], None, Err, length, min, OnOk, IfOk, IfErr};
ghost use Rattle.pm_model.specs.Causes.{Rose, raised};
ghost use Rattle.pm_model.specs.History.{opening_machine, state_of};
ghost use Rattle.pm_model.specs.Lines.{cut};
ghost use Rattle.pm_run.specs.Wrote.{Wrote, WroteWhole, WrotePart};
ghost use Rattle.pm_run.specs.Coming.{coming, coming_past, ahead};
ghost use Rattle.pm_run.specs.Ended.{Ended, EndsRun, Advanced};
ghost use Rattle.pm_run.specs.Parts.{HasStopCause};
ghost use Rattle.pm_run.specs.Ran.{Ran, IsComplete};
ghost use Rattle.pm_run.specs.Reached.{AtEnd, Reached};
ghost use Rattle.pm_run.specs.Statuses.{status_number};

use crate::lines::{Stop, answer_lines};
use crate::statuses::Status;
use pm_machine::Answerer;
use pm_model::{Sink, Source};
use pm_session::Session;
use std::alloc::Global;
use std::thread::Threads;

const PIECE: usize = 4096;

impl From<Stop> for Status {
    ghost use Rattle.std.specs.Prelude.{◌≡◌};
    ghost use Rattle.pm_run.specs.Parts.{stop_status};

    ghost from_gives = { λ stop status. status ≡ stop_status stop };

    fn from(stop: Stop) -> Status {
        match stop {
            Stop::WriteFault => Status::WriteFault,
            Stop::Memory => Status::Memory,
        }
    }
}

// Answers the whole lines, once a piece more has come.
fn turn<M: Answerer, O: Sink, R: Threads + Sync>(
    rt: &R,
    alloc: Global,
    piece: &[u8],
    session: &mut Session,
    machine: &mut M,
    out: &mut O,
) -> Result<(), Stop>
    requires drained { cut session.old.waiting ≡ None }
    requires sent { session.old.output ≡ [] }
    requires short { length piece.now ≤ 4096 }
    ensures ok { OnOk result (Wrote (O.taken out.old) (O.taken out.new) (state_of (M.machine machine.old)) (state_of (M.machine machine.new))
        (coming_past session.old.waiting piece.now) (coming session.new.waiting)) }
    ensures drained { OnOk result (cut session.new.waiting ≡ None) }
    ensures sent { OnOk result (session.new.output ≡ []) }
    ensures fault { result ≡ Err Stop.WriteFault
        → WrotePart (O.taken out.old) (O.taken out.new) (ahead (state_of (M.machine machine.old)) (coming_past session.old.waiting piece.now)) }
    ensures memory { result ≡ Err Stop.Memory
        → WroteWhole (O.taken out.old) (O.taken out.new) (state_of (M.machine machine.old)) (state_of (M.machine machine.new)) (coming_past session.old.waiting piece.now) }
    ensures cause { HasStopCause (O.faults out.old) (O.faults out.new) result }
{
    session.push(piece);
    answer_lines(rt, alloc, session, machine, out)
}

// Reads a piece more and answers its lines, and says how many bytes it has; or how the run ends.
fn answer_piece<M: Answerer, I: Source, O: Sink, R: Threads + Sync>(
    rt: &R,
    alloc: Global,
    piece: &mut [u8],
    session: &mut Session,
    machine: &mut M,
    source: &mut I,
    out: &mut O,
) -> Result<usize, Status>
    requires some { 0 < length piece.old }
    requires short { length piece.old ≤ 4096 }
    requires drained { cut session.old.waiting ≡ None }
    requires sent { session.old.output ≡ [] }
    ensures ok { IfOk result (Advanced
        (record { left = I.left source.old; taken = O.taken out.old; read_faults = I.faults source.old; ends = I.ends source.old; write_faults = O.faults out.old })
        (record { left = I.left source.new; taken = O.taken out.new; read_faults = I.faults source.new; ends = I.ends source.new; write_faults = O.faults out.new })
        (state_of (M.machine machine.old)) (state_of (M.machine machine.new)) session.old session.new (length piece.old)) }
    ensures err { IfErr result (EndsRun
        (record { left = I.left source.old; taken = O.taken out.old; read_faults = I.faults source.old; ends = I.ends source.old; write_faults = O.faults out.old })
        (record { left = I.left source.new; taken = O.taken out.new; read_faults = I.faults source.new; ends = I.ends source.new; write_faults = O.faults out.new })
        (state_of (M.machine machine.old)) session.old (length piece.old)) }
    ensures done { result ≡ Err Status.Done
        → AtEnd (I.left source.old) (I.left source.new) (state_of (M.machine machine.old)) (state_of (M.machine machine.new)) }
{
    let Ok(count) = source.read(piece) else {
        return Err(Status::ReadFault);
    };
    if count == 0 {
        return Err(Status::Done);
    }
    turn(rt, alloc, &piece[..count], session, machine, out)?;
    Ok(count)
}

// How much of a piece may still be read.
fn room(limit: u64, total: u64) -> usize
    requires { total < limit }
    ensures { result ≡ min (limit - total) 4096 }
{
    (limit - total).min(PIECE as u64) as usize
}

// Answers piece after piece, with a session and a machine at their beginning.
fn answer_all<M: Answerer, I: Source, O: Sink, R: Threads + Sync>(
    rt: &R,
    alloc: Global,
    limit: u64,
    session: &mut Session,
    machine: &mut M,
    source: &mut I,
    out: &mut O,
) -> Status
    requires session { session.old ≡ record { waiting = []; output = [] } }
    requires machine { M.machine machine.old ≡ opening_machine }
    ensures ended { Ended limit
        (record { left = I.left source.old; taken = O.taken out.old; read_faults = I.faults source.old; ends = I.ends source.old; write_faults = O.faults out.old })
        (record { left = I.left source.new; taken = O.taken out.new; read_faults = I.faults source.new; ends = I.ends source.new; write_faults = O.faults out.new })
        result }
    ensures reached { result ≡ Status.Done → Reached limit (I.left source.old) (I.left source.new) (state_of (M.machine machine.new)) }
{
    let mut piece = [0u8; PIECE];
    let mut total = 0u64;
    while total < limit {
        let target = &mut piece[..room(limit, total)];
        match answer_piece(rt, alloc, target, session, machine, source, out) {
            Ok(count) => total += count as u64,
            Err(status) => return status,
        }
    }
    Status::TooMuch
}

/// Answers the lines of the source on a machine at its beginning, up to this many bytes of them. On Done the machine has
/// answered them all.
pub fn run_on<M: Answerer, I: Source, O: Sink, R: Threads + Sync>(
    rt: &R,
    alloc: Global,
    limit: u64,
    machine: &mut M,
    source: &mut I,
    out: &mut O,
) -> Status
    requires { M.machine machine.old ≡ opening_machine }
    ensures ended { Ended limit
        (record { left = I.left source.old; taken = O.taken out.old; read_faults = I.faults source.old; ends = I.ends source.old; write_faults = O.faults out.old })
        (record { left = I.left source.new; taken = O.taken out.new; read_faults = I.faults source.new; ends = I.ends source.new; write_faults = O.faults out.new })
        result }
    ensures reached { result ≡ Status.Done → Reached limit (I.left source.old) (I.left source.new) (state_of (M.machine machine.new)) }
{
    let Ok(mut session) = Session::new(alloc) else {
        return Status::Memory;
    };
    answer_all(rt, alloc, limit, &mut session, machine, source, out)
}

/// Answers the lines of the source, up to this many bytes of it. A `survey` may start threads, which have ended before the
/// next line is taken.
pub fn run_lines<M: Answerer + Drop, I: Source, O: Sink, R: Threads + Sync>(
    rt: &R,
    alloc: Global,
    limit: u64,
    source: &mut I,
    out: &mut O,
) -> Status
    ensures ran { Ran limit (I.left source.old) (I.left source.new) (O.taken out.old) (O.taken out.new) result }
    ensures usage { result ≢ Status.Usage }
    ensures serve { (port workers : ℕ) → result ≢ Status.Serve port workers }
    ensures serve_journal { (port workers : ℕ) → result ≢ Status.ServeJournal port workers }
    ensures number { status_number result ≤ 6 }
    ensures complete { ¬ Rose (I.faults source.old) (I.faults source.new)
        → ¬ Rose (O.faults out.old) (O.faults out.new) → IsComplete limit (I.left source.old) result }
    ensures read { result ≡ Status.ReadFault → Rose (I.faults source.old) (I.faults source.new) }
    ensures read_kept { result ≢ Status.ReadFault → I.faults source.new ≡ I.faults source.old }
    ensures write { result ≡ Status.WriteFault → Rose (O.faults out.old) (O.faults out.new) }
    ensures write_kept { result ≢ Status.WriteFault → O.faults out.new ≡ O.faults out.old }
    ensures end { result ≡ Status.Done → I.ends source.new ≡ raised (I.ends source.old) }
    ensures end_kept { result ≢ Status.Done → I.ends source.new ≡ I.ends source.old }
{
    let Ok(mut machine) = M::opening(alloc) else {
        return Status::Memory;
    };
    run_on(rt, alloc, limit, &mut machine, source, out)
}
