//! The policy document of the machine that an input makes.
ghost use Rattle.std.specs.Prelude.{◌≡◌, ◌≢◌, ◌≤◌, ◌^◌, List, None, Option, Err, ℕ, IfErr, IfOk, OnOk};
ghost use Rattle.pm_document_text.specs.Text.{document_text};
ghost use Rattle.pm_model.specs.Causes.{Rose, raised};
ghost use Rattle.pm_model.specs.History.{opening_machine, state_of};
ghost use Rattle.pm_policy.specs.Drawn.{policy_in_order};
ghost use Rattle.pm_program.specs.Exporting.{Exported, IsExport};
ghost use Rattle.pm_run.specs.Reached.{Reached};
ghost use Rattle.pm_run.specs.Statuses.{status_number};

use pm_document_text::write_document;
use pm_drawn::Drawn;
use pm_machine::Answerer;
use pm_model::{Failed, Memory, Sink, Source};
use pm_run::{Status, run_on, write_all};
use std::alloc::Global;
use std::thread::Threads;

const LIMIT: u64 = 1 << 40;

/// A sink that takes all, and keeps none of it.
#[derive(Clone, Copy)]
struct Nowhere;

impl Sink for Nowhere {
    ghost use Rattle.std.specs.Prelude.{None};

    ghost taken = { λ s. None };

    ghost faults = { λ s. 0 };

    fn write(&mut self, piece: &[u8]) -> Result<usize, Failed> {
        Ok(piece.len())
    }
}

// Runs the lines of the source on the machine, and drops the replies. An error says why the source's end was not reached.
fn run_unheard<M: Answerer, I: Source, R: Threads + Sync>(
    rt: &R,
    alloc: Global,
    machine: &mut M,
    source: &mut I,
) -> Result<(), Status>
    requires { M.machine machine.old ≡ opening_machine }
    ensures ok { OnOk result (Reached (2 ^ 40) (I.left source.old) (I.left source.new) (state_of (M.machine machine.new))) }
    ensures end { OnOk result (I.ends source.new ≡ raised (I.ends source.old)) }
    ensures err { IfErr result (λ status. (taken : Option (List ℕ))
        → Exported (2 ^ 40) (I.left source.old) (I.left source.new) (I.ends source.old) (I.ends source.new) taken taken status) }
    ensures read { result ≡ Err Status.ReadFault → Rose (I.faults source.old) (I.faults source.new) }
    ensures read_kept { result ≢ Err Status.ReadFault → I.faults source.new ≡ I.faults source.old }
    ensures write { result ≢ Err Status.WriteFault }
{
    match run_on(rt, alloc, LIMIT, machine, source, &mut Nowhere) {
        Status::Done => Ok(()),
        status => Err(status),
    }
}

// The text of the policy of the machine.
fn text_of<M: Drawn>(alloc: Global, machine: &M) -> Result<Vec<u8>, Memory>
    ensures { IfOk result (λ text. text.items ≡ document_text (policy_in_order (M.machine machine.now).graph)) }
{
    let policy = machine.policy()?;
    let mut text = Vec::new(alloc);
    write_document(&policy, &mut text)?;
    Ok(text)
}

// The document of the machine that all of the source makes.
fn make_document<M: Drawn + Drop, I: Source, R: Threads + Sync>(
    rt: &R,
    alloc: Global,
    source: &mut I,
) -> Result<Vec<u8>, Status>
    ensures ok { IfOk result (λ text. IsExport (2 ^ 40)
        (record { left = I.left source.old; faults = I.faults source.old; ends = I.ends source.old })
        (record { left = I.left source.new; faults = I.faults source.new; ends = I.ends source.new })
        text.items) }
    ensures err { IfErr result (λ status. (taken : Option (List ℕ))
        → Exported (2 ^ 40) (I.left source.old) (I.left source.new) (I.ends source.old) (I.ends source.new) taken taken status) }
    ensures read { result ≡ Err Status.ReadFault → Rose (I.faults source.old) (I.faults source.new) }
    ensures read_kept { result ≢ Err Status.ReadFault → I.faults source.new ≡ I.faults source.old }
    ensures write { result ≢ Err Status.WriteFault }
{
    let Ok(mut machine) = M::opening(alloc) else {
        return Err(Status::Memory);
    };
    run_unheard(rt, alloc, &mut machine, source)?;
    match text_of(alloc, &machine) {
        Ok(text) => Ok(text),
        Err(Memory) => Err(Status::Memory),
    }
}

/// Writes the policy document of the machine that the lines of the source make, up to 2^40 bytes of them, and none of the
/// replies. The document is made whole before any of it is written.
pub(crate) fn export<M: Drawn + Drop, I: Source, O: Sink, R: Threads + Sync>(
    rt: &R,
    alloc: Global,
    source: &mut I,
    out: &mut O,
) -> Status
    ensures exported { Exported (2 ^ 40) (I.left source.old) (I.left source.new) (I.ends source.old) (I.ends source.new)
        (O.taken out.old) (O.taken out.new) result }
    ensures usage { result ≢ Status.Usage }
    ensures serve { (port workers : ℕ) → result ≢ Status.Serve port workers }
    ensures serve_journal { (port workers : ℕ) → result ≢ Status.ServeJournal port workers }
    ensures number { status_number result ≤ 6 }
    ensures read { result ≡ Status.ReadFault → Rose (I.faults source.old) (I.faults source.new) }
    ensures read_kept { result ≢ Status.ReadFault → I.faults source.new ≡ I.faults source.old }
    ensures write { result ≡ Status.WriteFault → Rose (O.faults out.old) (O.faults out.new) }
    ensures write_kept { result ≢ Status.WriteFault → O.faults out.new ≡ O.faults out.old }
{
    let text = match make_document::<M, I, R>(rt, alloc, source) {
        Ok(text) => text,
        Err(status) => return status,
    };
    match write_all(out, &text) {
        Ok(()) => Status::Done,
        Err(Failed) => Status::WriteFault,
    }
}
