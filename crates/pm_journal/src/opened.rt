//! Opening a journal: its entries, and what a crash may leave meanwhile.

ghost use Rattle.std.specs.Prelude.{◌≡◌, ◌≤◌, ◌+◌, ◌*◌, true, List, ℕ, Option, length, take, IfOk, IfErr};
ghost use Rattle.pm_disk.specs.Disks.{Each, Leaves};
ghost use Rattle.pm_journal.specs.Images.{Rests, Stands};
ghost use Rattle.pm_journal.specs.Reading.{AreRead};
ghost use Rattle.pm_journal.specs.Heads.{HasStood};
ghost use Rattle.pm_journal.specs.Journals.{kept_in, StandsFor};
ghost use Rattle.pm_journal.specs.Opens.{IsUnopened, HasOpenCause, LeavesSynced, open_error};
ghost use Rattle.pm_journal.specs.Notes.{Note};

use crate::open::{Head, begin, look_at_head};
use crate::reading::{Unread, resume};
use pm_disk::Disk;
use pm_model::{Entry, Failed, ItemList};
use std::alloc::Global;

/// Why a journal was not opened.
#[derive(Clone, Copy, Debug, PartialEq, Eq)]
pub enum OpenError {
    /// The file has bytes, but no header with a byte behind it. Its content is as before.
    NotJournal,
    /// At this place for a gate stands a byte that isn't 0, and no whole record with a byte behind it follows, or 262,144 records
    /// stand before it. It is the first such place. The content is as before.
    Damaged { at: u64 },
    /// The disk has failed, and has counted that.
    Failed,
    /// There was no memory.
    Memory,
}

impl From<Failed> for OpenError {
    ghost use Rattle.pm_journal.specs.declared.opened.OpenError.TheVariants.{Failed};

    ghost from_gives = { λ _ e. e ≡ Failed };

    fn from(_failed: Failed) -> OpenError {
        OpenError::Failed
    }
}

fn why(unread: Unread) -> OpenError
    ensures { result ≡ open_error unread }
{
    match unread {
        Unread::Failed => OpenError::Failed,
        Unread::Memory => OpenError::Memory,
        Unread::Damaged { at } => OpenError::Damaged { at },
    }
}

// The entries of a file, and the place of the closed gate behind them, all of it on the disk. Where each image stood for some
// notes, or these and one more, a crash at any moment leaves such a one; and where the content alone did, a crash from the first sync
// on leaves what stands for the same.
pub(crate) fn opened<D: Disk>(
    alloc: Global,
    disk: &mut D,
) -> Result<(ItemList<Entry>, u64), OpenError>
    ensures stood { D.tells ≡ true → IfOk result (λ r. HasStood (kept_in (length r.0) (take r.1 (D.content disk.new))) (D.content disk.old)) }
    ensures read { D.tells ≡ true → IfOk result (λ r. AreRead r.1 (length r.0) (D.content disk.new) r.0) }
    ensures rests { D.tells ≡ true → IfOk result (λ r. Each (D.may_leave disk.new) (Rests r.1 (take r.1 (D.content disk.new)))) }
    ensures count { IfOk result (λ r. length r.0 ≤ 262144) }
    ensures end { IfOk result (λ r. r.1 ≤ 8 + 8209 * length r.0) }
    ensures unopened { D.tells ≡ true → IfErr result (IsUnopened (D.content disk.old) (D.content disk.new)) }
    ensures any_moment { D.tells ≡ true → (kept : List Note) (lost : Option Note) → Each (D.may_leave disk.old) (StandsFor kept lost) → Leaves D.moment D.left_since disk.old disk.new (StandsFor kept lost) }
    ensures synced { D.tells ≡ true → (notes : List Note) → Stands notes (D.content disk.old) → LeavesSynced D.moment D.left_since disk.old disk.new (Stands notes) }
    ensures cause { HasOpenCause (D.faults disk.old) (D.faults disk.new) result }
{
    disk.sync()?;
    match look_at_head(disk)? {
        Head::Empty => {
            begin(disk)?;
            Ok((ItemList::new(alloc), 8))
        }
        Head::Other => Err(OpenError::NotJournal),
        Head::Journal => match resume(alloc, disk) {
            Ok(found) => Ok(found),
            Err(unread) => Err(why(unread)),
        },
    }
}
