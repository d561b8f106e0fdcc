//! Reading a journal back.

ghost use Rattle.std.specs.Prelude.{◌≡◌, ◌<◌, ◌≤◌, ◌^◌, ◌+◌, ◌*◌, ◌++◌, ◌∷◌, true, List, length, take, drop, get_or, IfOk, IfErr};
ghost use Rattle.pm_disk.specs.Disks.{Each, Leaves, Stays};
ghost use Rattle.pm_journal.specs.Ends.{HasReadCause, IsNoDamage, IsDamaged, LeavesDamaged};
ghost use Rattle.pm_journal.specs.Images.{Rests, Stands};
ghost use Rattle.pm_journal.specs.Reading.{AreRead};
ghost use Rattle.pm_journal.specs.Journals.{kept_in};
ghost use Rattle.pm_journal.specs.Notes.{Note, header};
ghost use Rattle.pm_journal.specs.Founds.{IsFound, IsShort};

use crate::fill::fill;
use crate::written::{Found, found_in};
use pm_disk::Disk;
use pm_model::{Entry, Failed, ItemList, Memory};
use std::alloc::Global;

/// Why a journal could not be read back.
#[derive(Clone, Copy, Debug, PartialEq, Eq)]
pub(crate) enum Unread {
    /// The disk has failed.
    Failed,
    /// There was no memory.
    Memory,
    /// Something is wrong at this place for a gate.
    Damaged { at: u64 },
}

impl From<Failed> for Unread {
    ghost use Rattle.pm_journal.specs.declared.reading.Unread.TheVariants.{Failed};

    ghost from_gives = { λ _ e. e ≡ Failed };

    fn from(_failed: Failed) -> Unread {
        Unread::Failed
    }
}

impl From<Memory> for Unread {
    ghost use Rattle.pm_journal.specs.declared.reading.Unread.TheVariants.{Memory};

    ghost from_gives = { λ _ e. e ≡ Memory };

    fn from(_memory: Memory) -> Unread {
        Unread::Memory
    }
}

const MOST: u32 = 262_144;

// A gate, the longest body, and one byte more.
const WINDOW: usize = 8_210;

// What stands at this place for a gate.
fn find<D: Disk>(alloc: Global, disk: &mut D, at: u64, window: &mut [u8]) -> Result<Found, Unread>
    requires place { at ≤ 2 ^ 62 }
    requires window { length window.old ≡ 8210 }
    ensures window { length window.new ≡ 8210 }
    ensures found { D.tells ≡ true → IfOk result (IsFound (drop at (D.content disk.old))) }
    ensures short { IfOk result IsShort }
    ensures stays { D.tells ≡ true → Stays D.content D.may_leave D.moment D.left_since disk.old disk.new }
    ensures cause { HasReadCause (D.faults disk.old) (D.faults disk.new) result }
    ensures whole { IfErr result IsNoDamage }
{
    let n = fill(disk, at, window)?;
    Ok(found_in(alloc, &window[..n])?)
}

// The room that a window takes.
fn window(alloc: Global) -> Result<Vec<u8>, Memory>
    ensures { IfOk result (λ w. length w.items ≡ 8210) }
{
    let mut window = Vec::with_capacity(alloc, WINDOW)?;
    window.resize(WINDOW, 0)?;
    Ok(window)
}

/// The entries of the records behind the header, and the place of the closed gate behind them.
pub(crate) fn read_entries<D: Disk>(
    alloc: Global,
    disk: &mut D,
) -> Result<(ItemList<Entry>, u64), Unread>
    requires header { D.tells ≡ true → take 8 (D.content disk.old) ≡ header }
    requires begun { D.tells ≡ true → 8 < length (D.content disk.old) }
    ensures read { D.tells ≡ true → IfOk result (λ r. AreRead r.1 (length r.0) (D.content disk.old) r.0) }
    ensures shut { D.tells ≡ true → IfOk result (λ r. get_or (D.content disk.old) r.1 1 ≡ 0) }
    ensures count { IfOk result (λ r. length r.0 ≤ 262144) }
    ensures end { IfOk result (λ r. r.1 ≤ 8 + 8209 * length r.0) }
    ensures damaged { D.tells ≡ true → IfErr result (IsDamaged (D.content disk.old)) }
    ensures stays { D.tells ≡ true → Stays D.content D.may_leave D.moment D.left_since disk.old disk.new }
    ensures cause { HasReadCause (D.faults disk.old) (D.faults disk.new) result }
{
    let mut window = window(alloc)?;
    let mut entries = ItemList::new(alloc);
    let mut at: u64 = 8;
    for count in 0..MOST + 1 {
        match find(alloc, disk, at, &mut window)? {
            Found::Closed => return Ok((entries, at)),
            Found::Broken => return Err(Unread::Damaged { at }),
            Found::Whole { entry, len } => {
                if count == MOST {
                    return Err(Unread::Damaged { at });
                }
                entries.push(entry)?;
                at += 17 + len as u64;
            }
        }
    }
    unreachable!()
}

/// The entries of a journal, whose header was seen, and the place of the closed gate behind them. What is behind that is cut
/// off. At any moment a crash leaves the same entries.
pub(crate) fn resume<D: Disk>(alloc: Global, disk: &mut D) -> Result<(ItemList<Entry>, u64), Unread>
    requires header { D.tells ≡ true → take 8 (D.content disk.old) ≡ header }
    requires begun { D.tells ≡ true → 8 < length (D.content disk.old) }
    requires durable { D.tells ≡ true → Each (D.may_leave disk.old) (λ c. c ≡ D.content disk.old) }
    ensures notes { D.tells ≡ true → IfOk result (λ r. Stands (kept_in (length r.0) (take r.1 (D.content disk.new))) (D.content disk.old)) }
    ensures read { D.tells ≡ true → IfOk result (λ r. AreRead r.1 (length r.0) (D.content disk.new) r.0) }
    ensures rests { D.tells ≡ true → IfOk result (λ r. Each (D.may_leave disk.new) (Rests r.1 (take r.1 (D.content disk.new)))) }
    ensures count { IfOk result (λ r. length r.0 ≤ 262144) }
    ensures end { IfOk result (λ r. r.1 ≤ 8 + 8209 * length r.0) }
    ensures damaged { D.tells ≡ true → IfErr result (IsDamaged (D.content disk.old)) }
    ensures untouched { D.tells ≡ true → IfErr result (LeavesDamaged (D.content disk.old) (D.content disk.new)) }
    ensures any_moment { D.tells ≡ true → (notes : List Note) → Stands notes (D.content disk.old) → Leaves D.moment D.left_since disk.old disk.new (Stands notes) }
    ensures cause { HasReadCause (D.faults disk.old) (D.faults disk.new) result }
{
    let (entries, end) = read_entries(alloc, disk)?;
    disk.cut(end + 1)?;
    disk.sync()?;
    Ok((entries, end))
}
