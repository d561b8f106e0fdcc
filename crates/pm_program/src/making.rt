//! The lines that make the policy document of an input.
ghost use Rattle.std.specs.Prelude.{◌≡◌, ◌≢◌, ◌≤◌, ◌^◌, List, Option, Err, ℕ, IfErr, IfOk};
ghost use Rattle.pm_making.specs.Lines.{document_lines};
ghost use Rattle.pm_model.specs.Causes.{Rose};
ghost use Rattle.pm_program.specs.Making.{AreLinesOf, AreReady, Made, SaysNone};
ghost use Rattle.pm_run.specs.Statuses.{status_number};

use crate::reading::read_whole;
use pm_document::{Document, DocumentError, read_document};
use pm_making::request_lines;
use pm_model::{Failed, Memory, Sink, Source};
use pm_run::{Status, write_all};
use std::alloc::Global;

const LIMIT: usize = 1 << 26;

fn lines_of(alloc: Global, document: &Document) -> Result<Vec<u8>, Memory>
    ensures { IfOk result (λ lines. lines.items ≡ document_lines document.now) }
{
    let mut lines = Vec::new(alloc);
    request_lines(document.policy(), &mut lines)?;
    Ok(lines)
}

// The lines of the document that the bytes say.
fn lines_in(alloc: Global, bytes: &[u8]) -> Result<Vec<u8>, DocumentError>
    ensures ok { IfOk result (λ lines. AreLinesOf bytes.now lines.items) }
    ensures refused { result ≡ Err DocumentError.Refused → SaysNone bytes.now }
{
    let document = read_document(alloc, bytes)?;
    let lines = lines_of(alloc, &document)?;
    Ok(lines)
}

// The lines of the document that all of the source says.
fn read_lines<I: Source>(alloc: Global, source: &mut I) -> Result<Vec<u8>, Status>
    ensures ok { IfOk result (λ lines. AreReady (2 ^ 26)
        (record { left = I.left source.old; faults = I.faults source.old; ends = I.ends source.old })
        (record { left = I.left source.new; faults = I.faults source.new; ends = I.ends source.new })
        lines.items) }
    ensures err { IfErr result (λ status. (taken : Option (List ℕ))
        → Made (2 ^ 26) (I.left source.old) (I.left source.new) (I.ends source.old) (I.ends source.new) taken taken status) }
    ensures read { result ≡ Err Status.ReadFault → Rose (I.faults source.old) (I.faults source.new) }
    ensures read_kept { result ≢ Err Status.ReadFault → I.faults source.new ≡ I.faults source.old }
    ensures write { result ≢ Err Status.WriteFault }
{
    let input = read_whole(alloc, LIMIT, source)?;
    match lines_in(alloc, &input) {
        Ok(lines) => Ok(lines),
        Err(DocumentError::Refused) => Err(Status::DocumentRefused),
        Err(DocumentError::Memory) => Err(Status::Memory),
    }
}

/// Writes the lines that make the policy document that the source has, if that is sound and shorter than 2^26 bytes.
pub(crate) fn make_lines<I: Source, O: Sink>(alloc: Global, source: &mut I, out: &mut O) -> Status
    ensures made { Made (2 ^ 26) (I.left source.old) (I.left source.new) (I.ends source.old) (I.ends source.new)
        (O.taken out.old) (O.taken out.new) result }
    ensures usage { result ≢ Status.Usage }
    ensures serve { (port workers : ℕ) → result ≢ Status.Serve port workers }
    ensures serve_journal { (port workers : ℕ) → result ≢ Status.ServeJournal port workers }
    ensures number { result ≢ Status.DocumentRefused → status_number result ≤ 6 }
    ensures read { result ≡ Status.ReadFault → Rose (I.faults source.old) (I.faults source.new) }
    ensures read_kept { result ≢ Status.ReadFault → I.faults source.new ≡ I.faults source.old }
    ensures write { result ≡ Status.WriteFault → Rose (O.faults out.old) (O.faults out.new) }
    ensures write_kept { result ≢ Status.WriteFault → O.faults out.new ≡ O.faults out.old }
{
    let lines = match read_lines(alloc, source) {
        Ok(lines) => lines,
        Err(status) => return status,
    };
    match write_all(out, &lines) {
        Ok(()) => Status::Done,
        Err(Failed) => Status::WriteFault,
    }
}
