//! The run of a generated policy, and what is written of it.
ghost use Rattle.std.specs.Prelude.{◌≡◌, ◌≢◌, ◌<◌, ◌≤◌, ℕ, IfOk};
ghost use Rattle.pm_model.specs.Causes.{Rose};
ghost use Rattle.pm_generator.specs.Generated.{generated};
ghost use Rattle.pm_generator.specs.Summaries.{summary, summary_text};
ghost use Rattle.pm_program.specs.Generating.{Summed};
ghost use Rattle.pm_run.specs.Statuses.{status_number};

use pm_generator::generate;
use pm_model::{Failed, Memory, Sink};
use pm_run::{Status, write_all};
use pm_tally::Tally;
use std::alloc::Global;
use std::thread::Threads;

// The text of the summary of a run of the generated policy of this size, on a machine of its own.
fn text_of_run<M: Tally + Drop, R: Threads + Sync>(
    rt: &R,
    alloc: Global,
    size: u16,
) -> Result<Vec<u8>, Memory>
    requires { (0 < size) × (size ≤ 200) }
    ensures { IfOk result (λ text. text.items ≡ summary_text (summary (generated size))) }
{
    match generate::<M, R>(rt, alloc, size)? {
        Some(summary) => summary.text(alloc),
        None => unreachable!(),
    }
}

/// Runs the generated policy of this size on a machine of its own, and writes the summary of the run, once it is over.
pub(crate) fn run_generated<M: Tally + Drop, O: Sink, R: Threads + Sync>(
    rt: &R,
    alloc: Global,
    size: u16,
    out: &mut O,
) -> Status
    requires { (0 < size) × (size ≤ 200) }
    ensures summed { Summed size (O.taken out.old) (O.taken out.new) result }
    ensures usage { result ≢ Status.Usage }
    ensures serve { (port workers : ℕ) → result ≢ Status.Serve port workers }
    ensures serve_journal { (port workers : ℕ) → result ≢ Status.ServeJournal port workers }
    ensures number { status_number result ≤ 6 }
    ensures read { result ≢ Status.ReadFault }
    ensures write { result ≡ Status.WriteFault → Rose (O.faults out.old) (O.faults out.new) }
    ensures write_kept { result ≢ Status.WriteFault → O.faults out.new ≡ O.faults out.old }
{
    let Ok(text) = text_of_run::<M, R>(rt, alloc, size) else {
        return Status::Memory;
    };
    match write_all(out, &text) {
        Ok(()) => Status::Done,
        Err(Failed) => Status::WriteFault,
    }
}
