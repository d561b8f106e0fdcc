//! What is said on `err` of how the program ended.
ghost use Rattle.std.specs.Prelude.{◌++◌, List, ℕ, codes, decimal, OnErr, OnOk};
ghost use Rattle.std.specs.Io.KnownBytes.{Appends};
ghost use Rattle.pm_model.specs.Causes.{HasCause};
ghost use Rattle.pm_program.specs.Said.{Said};
ghost use Rattle.pm_run.specs.Statuses.{status_line};
ghost use Rattle.pm_run.specs.Wrote.{WrotePart};

use itoa::Buffer;
use pm_model::{Failed, Sink};
use pm_run::{Status, write_all};

// Writes two texts, one behind the other.
fn write_both<E: Sink>(err: &mut E, first: &[u8], second: &[u8]) -> Result<(), Failed>
    ensures ok { OnOk result (Appends (E.taken err.old) (E.taken err.new) (first.now ++ second.now)) }
    ensures err { OnErr result (WrotePart (E.taken err.old) (E.taken err.new) (λ _. first.now ++ second.now)) }
    ensures cause { HasCause (E.faults err.old) (E.faults err.new) result }
{
    write_all(err, first)?;
    write_all(err, second)
}

// Writes the number, and ends the line.
fn write_number<E: Sink>(err: &mut E, number: u64) -> Result<(), Failed>
    ensures ok { OnOk result (Appends (E.taken err.old) (E.taken err.new) (decimal number ++ codes "\n")) }
    ensures err { OnErr result (WrotePart (E.taken err.old) (E.taken err.new) (λ _. decimal number ++ codes "\n")) }
    ensures cause { HasCause (E.faults err.old) (E.faults err.new) result }
{
    let mut buffer = Buffer::new();
    write_both(err, buffer.format(number).as_bytes(), b"\n")
}

// Writes the text, and the number behind it, if there is one.
fn write_line<E: Sink>(err: &mut E, status: Status) -> Result<(), Failed>
    ensures ok { OnOk result (Appends (E.taken err.old) (E.taken err.new) (status_line status)) }
    ensures err { OnErr result (WrotePart (E.taken err.old) (E.taken err.new) (λ _. status_line status)) }
    ensures cause { HasCause (E.faults err.old) (E.faults err.new) result }
{
    write_all(err, status.text().as_bytes())?;
    match status.place() {
        Some(at) => write_number(err, at),
        None => Ok(()),
    }
}

/// Says on `err` how the program ended, as far as it takes the words.
pub fn say<E: Sink>(err: &mut E, status: Status)
    ensures { Said (E.taken err.old) (E.taken err.new) (E.faults err.old) (E.faults err.new) (status_line status) }
{
    let _ = write_line(err, status);
}
