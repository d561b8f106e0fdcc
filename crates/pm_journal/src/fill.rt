//! Reading as much as is there.

ghost use Rattle.std.specs.Prelude.{◌≡◌, ◌≤◌, ◌^◌, true, length, IfOk};
ghost use Rattle.pm_model.specs.Causes.{HasCause};
ghost use Rattle.pm_disk.specs.Disks.{Stays, Fills};

use pm_disk::Disk;
use pm_model::Failed;

/// Fills the piece from this place on, as far as there is anything.
pub(crate) fn fill<D: Disk>(disk: &mut D, at: u64, piece: &mut [u8]) -> Result<usize, Failed>
    requires place { at ≤ 2 ^ 62 }
    requires short { length piece.old ≤ 2 ^ 32 }
    ensures size { length piece.new ≡ length piece.old }
    ensures bound { IfOk result (λ n. n ≤ length piece.new) }
    ensures bytes { D.tells ≡ true → IfOk result (Fills (D.content disk.old) at piece.new) }
    ensures stays { D.tells ≡ true → Stays D.content D.may_leave D.moment D.left_since disk.old disk.new }
    ensures cause { HasCause (D.faults disk.old) (D.faults disk.new) result }
{
    let mut got = 0;
    while got < piece.len() {
        let n = disk.read(at + got as u64, &mut piece[got..])?;
        if n == 0 {
            return Ok(got);
        }
        got += n;
    }
    Ok(got)
}
