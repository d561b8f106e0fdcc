//! A house that goes on from a journal.

ghost use Rattle.std.specs.Prelude.{◌≡◌, ◌<◌, ◌≤◌, true, List, length, IfErr, IfOk};
ghost use Rattle.pm_journal.specs.Kept.{IsRecovered};
ghost use Rattle.pm_model.specs.declared.requests.Entry.{Entry};
ghost use Rattle.pm_recovery.specs.Recovered.{GoesOn, GoesOnFrom, HasFailedCause, IsExcused, IsUnrecovered};
ghost use Rattle.pm_recovery.specs.declared.recovering.RecoverError.TheVariants as unrecovered;
ghost use Rattle.pm_world.specs.Restored.{IsMade};

use crossbeam_utils::rule::Protocol;
use left_right::Absorb;
use pm_disk::Disk;
use pm_house::{Home, House, Progress, RestoreError, Seats};
use pm_journal::{Journal, Keeper, Unopened};
use pm_machine::Version;
use pm_publish::{Glimpse, NeverBack, Opened, Sealed};
use std::alloc::Global;
use std::sync::Wait;
use std::sync::ledger::Blank;
use std::thread::Threads;

/// Why no house goes on from a disk.
#[derive(Drop)]
pub enum RecoverError<D: Disk + Drop> {
    /// Its journal isn't opened. Here is the disk.
    Unopened(Unopened<D>),
    /// No house of so many seats makes its entries, or there was no memory for one. The disk is dropped.
    Unmade(RestoreError),
}

impl<D: Disk + Drop> From<Unopened<D>> for RecoverError<D> {
    ghost from_gives = { λ unopened e. e ≡ unrecovered.Unopened unopened };

    fn from(unopened: Unopened<D>) -> RecoverError<D> {
        RecoverError::Unopened(unopened)
    }
}

impl<D: Disk + Drop> From<RestoreError> for RecoverError<D> {
    ghost from_gives = { λ why e. e ≡ unrecovered.Unmade why };

    fn from(why: RestoreError) -> RecoverError<D> {
        RecoverError::Unmade(why)
    }
}

/// The house that goes on from the journal of a disk, and keeps there what it accepts; and its seats, none of which is taken.
/// Its history is what the bytes stood for, each entry in its place, and empty where they were; each seat begins with all of it, as
/// after [`House::restore`]. What a crash leaves of a house is such bytes ([`a_crash_leaves_the_history`](crate::a_crash_leaves_the_history)):
/// so the new house has each entry that the old one told as accepted (`acknowledged`), and where there is none, the disk has failed, or
/// there was no memory, or the one entry more is illegal (`excused`). What a crash leaves during this call is told by [`Journal::open`].
/// `opened` and `blank` are of one [`house_room`](pm_house::house_room) of as many seats. `progress` is told of each entry before it is
/// taken. It publishes a version, so it may wait.
pub fn recover<V: Version, D: Disk + Drop, H: Home, R: Threads + Wait + Sync, P: Progress>(
    rt: &R,
    alloc: Global,
    opened: Opened,
    blank: Blank,
    disk: D,
    seats: u32,
    progress: &mut P,
) -> Result<(House<V, Keeper<D>, H>, Seats<V, H>), RecoverError<D>>
    requires room { opened ≡ H.book }
    requires ledger { (blank.name ≡ H.name) × (blank.parts ≡ H.parts) }
    requires seats { (0 < seats) × (seats ≤ 32) × (H.all ≡ seats) × (H.parts ≡ seats) }
    ensures recovered { D.tells ≡ true → IfOk result (λ h. GoesOn (D.content disk) seats h.1) }
    ensures unrecovered { D.tells ≡ true → IfErr result (IsUnrecovered D.content disk seats) }
    ensures failed { IfErr result (HasFailedCause D.faults disk) }
    ensures acknowledged { D.tells ≡ true → (history : List Entry) → IsRecovered history (D.content disk) → IfOk result (λ h. GoesOnFrom history seats h.1) }
    ensures excused { D.tells ≡ true → (history : List Entry) → IsRecovered history (D.content disk) → IsMade seats history → IfErr result (IsExcused (length history)) }
{
    let (journal, entries) = Journal::open(alloc, disk)?;
    let keeper = Keeper::new(alloc, journal);
    let made = House::restore(
        rt,
        alloc,
        opened,
        blank,
        keeper,
        entries.as_slice(),
        seats,
        progress,
    )?;
    Ok(made)
}
