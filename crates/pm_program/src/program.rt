//! The program, over what it reads and writes.
ghost use Rattle.std.specs.Prelude.{◌≡◌, ◌≢◌, ◌↔◌, ◌≤◌, ◌^◌, ℕ, IfErr};
ghost use Rattle.std.specs.IoError.{error_kind};
ghost use Rattle.pm_model.specs.Causes.{Rose, raised};
ghost use Rattle.pm_run.specs.Ran.{Ran, IsComplete};
ghost use Rattle.pm_program.specs.Exporting.{Exported};
ghost use Rattle.pm_program.specs.Generating.{Summed};
ghost use Rattle.pm_program.specs.Making.{Made};
ghost use Rattle.pm_program.specs.Said.{Said};
ghost use Rattle.pm_run.specs.Statuses.{status_line, status_number, status_text};
ghost use Rattle.pm_words.specs.Words.{AskRun, AskGenerate, AskServe, AskServeJournal, AskRequestLines, AskExport, AskOther, usage_line};

use crate::exporting::export;
use crate::generating::run_generated;
use crate::making::make_lines;
use crate::saying::say;
use pm_drawn::Drawn;
use pm_model::{Memory, Sink, Source};
use pm_run::{Status, run_lines};
use pm_tally::Tally;
use pm_words::{Asked, read_words};
use std::alloc::Global;
use std::env::Args;
use std::io;
use std::io::ErrorKind;
use std::thread::Threads;

const LIMIT: u64 = 1 << 40;

/// The program: with the one word `run` behind its name it answers the lines of the source, up to 2^40 bytes of it. With
/// `generate` and a size it runs the generated policy of that size, and writes the summary of the run, and nothing else. With
/// `serve`, a port and a number of workers it tells that a server is asked for, and with `serve-journal`, these and a file that
/// the server is to have a journal, and does nothing. With `request-lines` it writes the lines that make the policy document
/// that the source has, if that has less than 2^26 bytes and is a sound one; else it writes nothing. With `export` it answers the
/// lines of the source as `run` does, writes none of the replies, and once all are answered the policy document of the machine.
/// To read its words takes memory; where there is none for that, it does nothing either. Of the statuses of numbers from 7 on it tells DocumentRefused
/// alone; the others are those of a server that couldn't serve.
pub fn top<M: Tally + Drawn + Drop, I: Source, O: Sink, E: Sink, R: Threads + Sync>(
    rt: &R,
    alloc: Global,
    args: io::Result<Args>,
    source: &mut I,
    out: &mut O,
    err: &mut E,
) -> Status
    ensures usage { result ≢ Status.Memory → ((result ≡ Status.Usage) ↔ AskOther args) }
    ensures usage_line { result ≡ Status.Usage → status_text result ≡ usage_line }
    ensures serve { (port workers : ℕ) → result ≢ Status.Memory
        → ((result ≡ Status.Serve port workers) ↔ AskServe args port workers) }
    ensures serve_journal { (port workers : ℕ) → result ≢ Status.Memory
        → ((result ≡ Status.ServeJournal port workers) ↔ AskServeJournal args port workers) }
    ensures number { result ≢ Status.DocumentRefused → status_number result ≤ 6 }
    ensures refused { result ≡ Status.DocumentRefused → AskRequestLines args }
    ensures memory { IfErr args (λ error. (result ≡ Status.Memory) ↔ (error_kind error ≡ ErrorKind.OutOfMemory)) }
    ensures unread { ¬ AskRun args → ¬ AskRequestLines args → ¬ AskExport args → source.new ≡ source.old }
    ensures unwritten { ¬ AskRun args → ¬ AskRequestLines args → ¬ AskExport args → ((size : ℕ) → ¬ AskGenerate args size) → out.new ≡ out.old }
    ensures summed { (size : ℕ) → AskGenerate args size → Summed size (O.taken out.old) (O.taken out.new) result }
    ensures made { AskRequestLines args → Made (2 ^ 26) (I.left source.old) (I.left source.new) (I.ends source.old) (I.ends source.new)
        (O.taken out.old) (O.taken out.new) result }
    ensures exported { AskExport args → Exported (2 ^ 40) (I.left source.old) (I.left source.new) (I.ends source.old) (I.ends source.new)
        (O.taken out.old) (O.taken out.new) result }
    ensures ran { ¬ AskRequestLines args → ¬ AskExport args → ((size : ℕ) → ¬ AskGenerate args size)
        → Ran (2 ^ 40) (I.left source.old) (I.left source.new) (O.taken out.old) (O.taken out.new) result }
    ensures complete { AskRun args → ¬ Rose (I.faults source.old) (I.faults source.new)
        → ¬ Rose (O.faults out.old) (O.faults out.new) → IsComplete (2 ^ 40) (I.left source.old) result }
    ensures read { result ≡ Status.ReadFault → Rose (I.faults source.old) (I.faults source.new) }
    ensures read_kept { result ≢ Status.ReadFault → I.faults source.new ≡ I.faults source.old }
    ensures write { result ≡ Status.WriteFault → Rose (O.faults out.old) (O.faults out.new) }
    ensures write_kept { result ≢ Status.WriteFault → O.faults out.new ≡ O.faults out.old }
    ensures end { AskRun args → result ≡ Status.Done → I.ends source.new ≡ raised (I.ends source.old) }
    ensures end_kept { ¬ AskRequestLines args → ¬ AskExport args → result ≢ Status.Done → I.ends source.new ≡ I.ends source.old }
    ensures said { Said (E.taken err.old) (E.taken err.new) (E.faults err.old) (E.faults err.new) (status_line result) }
{
    let status = match read_words(alloc, args) {
        Ok(Some(Asked::Run)) => run_lines::<M, I, O, R>(rt, alloc, LIMIT, source, out),
        Ok(Some(Asked::Generate { size })) => run_generated::<M, O, R>(rt, alloc, size, out),
        Ok(Some(Asked::Serve { port, workers })) => Status::Serve { port, workers },
        Ok(Some(Asked::ServeJournal { port, workers })) => Status::ServeJournal { port, workers },
        Ok(Some(Asked::RequestLines)) => make_lines(alloc, source, out),
        Ok(Some(Asked::Export)) => export::<M, I, O, R>(rt, alloc, source, out),
        Ok(None) => Status::Usage,
        Err(Memory) => Status::Memory,
    };
    say(err, status);
    status
}
