//! The two steps of which each change of a journal is made: bytes behind a closed gate, and a gate. Each is synced.

ghost use Rattle.std.specs.Prelude.{◌≡◌, ◌≤◌, ◌<◌, ◌+◌, ◌^◌, true, ℕ, List, [], ◌∷◌, length, OnOk};
ghost use Rattle.pm_model.specs.Causes.{HasCause};
ghost use Rattle.pm_disk.specs.Disks.{Each, Holds, Leaves};
ghost use Rattle.pm_journal.specs.Images.{Rests, Doubts};

use pm_disk::Disk;
use pm_model::Failed;

/// Writes bytes behind the closed gate at this place. Whatever comes of it, the file begins as before, and the gate stays
/// closed.
pub(crate) fn stage<D: Disk>(disk: &mut D, gate: u64, piece: &[u8]) -> Result<(), Failed>
    requires fits { gate < 2 ^ 63 }
    requires room { D.tells ≡ true → gate < length (D.content disk.old) }
    ensures shut { D.tells ≡ true → (begin : List ℕ) → Each (D.may_leave disk.old) (Rests gate begin) → Each (D.may_leave disk.new) (Rests gate begin) × Leaves D.moment D.left_since disk.old disk.new (Rests gate begin) }
    ensures written { D.tells ≡ true → OnOk result (Holds (D.content disk.old) (gate + 1) piece.now (D.content disk.new)) }
    ensures durable { D.tells ≡ true → OnOk result (Each (D.may_leave disk.new) (λ c. c ≡ D.content disk.new)) }
    ensures cause { HasCause (D.faults disk.old) (D.faults disk.new) result }
{
    disk.write_at(gate + 1, piece)?;
    disk.sync()
}

/// Writes a gate. Whatever comes of it, all else is as before.
pub(crate) fn turn<D: Disk>(disk: &mut D, gate: u64, to: u8) -> Result<(), Failed>
    requires room { D.tells ≡ true → gate < length (D.content disk.old) }
    ensures doubt { D.tells ≡ true → (begin behind : List ℕ) → Each (D.may_leave disk.old) (Doubts gate begin behind) → Each (D.may_leave disk.new) (Doubts gate begin behind) × Leaves D.moment D.left_since disk.old disk.new (Doubts gate begin behind) }
    ensures written { D.tells ≡ true → OnOk result (Holds (D.content disk.old) gate (to ∷ []) (D.content disk.new)) }
    ensures durable { D.tells ≡ true → OnOk result (Each (D.may_leave disk.new) (λ c. c ≡ D.content disk.new)) }
    ensures cause { HasCause (D.faults disk.old) (D.faults disk.new) result }
{
    disk.write_at(gate, &[to])?;
    disk.sync()
}
