//! Opening a journal.

ghost use Rattle.std.specs.Prelude.{◌≡◌, ◌≢◌, ◌≤◌, ◌+◌, ◌*◌, ◌++◌, ◌∷◌, [], true, List, ℕ, Option, length, take, MatchBool, IfOk, OnOk};
ghost use Rattle.pm_model.specs.Causes.{HasCause};
ghost use Rattle.pm_disk.specs.Disks.{Each, Leaves, Stays};
ghost use Rattle.pm_journal.specs.Heads.{IsHead};
ghost use Rattle.pm_journal.specs.Notes.{Note, header};

use crate::fill::fill;
use pm_disk::Disk;
use pm_model::Failed;

const HEADER: [u8; 8] = *b"NGACJ001";

// How a file begins.
pub(crate) enum Head {
    Empty,
    Journal,
    Other,
}

fn is_header(bytes: &[u8]) -> bool
    ensures { MatchBool result (bytes.now ≡ header) (bytes.now ≢ header) }
{
    bytes == HEADER.as_slice()
}

pub(crate) fn look_at_head<D: Disk>(disk: &mut D) -> Result<Head, Failed>
    ensures head { D.tells ≡ true → IfOk result (IsHead (D.content disk.old)) }
    ensures stays { D.tells ≡ true → Stays D.content D.may_leave D.moment D.left_since disk.old disk.new }
    ensures cause { HasCause (D.faults disk.old) (D.faults disk.new) result }
{
    let mut bytes = [0; 9];
    let n = fill(disk, 0, &mut bytes)?;
    if n == 0 {
        return Ok(Head::Empty);
    }
    if n < 9 {
        return Ok(Head::Other);
    }
    if is_header(&bytes[..8]) {
        return Ok(Head::Journal);
    }
    Ok(Head::Other)
}

// Writes the header, and a closed gate, to an empty file.
pub(crate) fn begin<D: Disk>(disk: &mut D) -> Result<(), Failed>
    ensures written { D.tells ≡ true → D.content disk.old ≡ [] → OnOk result (D.content disk.new ≡ header ++ 0 ∷ []) }
    ensures durable { D.tells ≡ true → OnOk result (Each (D.may_leave disk.new) (λ c. c ≡ D.content disk.new)) }
    ensures cause { HasCause (D.faults disk.old) (D.faults disk.new) result }
{
    disk.write_at(0, b"NGACJ001\0")?;
    disk.sync()
}
