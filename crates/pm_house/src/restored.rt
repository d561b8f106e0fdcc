//! The history that a house goes on from.

ghost use Rattle.std.specs.Prelude.{◌≡◌, ◌<◌, ◌≤◌, All, length, IfOk, IfErr};
ghost use Rattle.pm_model.specs.History.{opening_machine};
ghost use Rattle.pm_world.specs.Restored.{IsMade};
ghost use Rattle.pm_house.specs.Restored.{IsUnmade};
ghost use Rattle.pm_house.specs.declared.restored.RestoreError.TheVariants as refused;

use crate::home::Home;
use crate::restoring::Restoring;
use pm_machine::Version;
use pm_model::{Entry, Memory};
use std::alloc::Global;
use std::sync::ledger::Blank;
use std::thread::Threads;

/// Why a house doesn't go on from a history.
#[derive(Clone, Copy, Debug, PartialEq, Eq)]
pub enum RestoreError {
    /// The entry at this place, from 0, is the first that a house of so many seats doesn't make there: the machine doesn't accept
    /// it, there is no such seat, or its number isn't one more than its seat's entries before it.
    Illegal { at: u64 },
    /// There was no memory.
    Memory,
}

impl From<Memory> for RestoreError {
    ghost from_gives = { λ _ e. e ≡ refused.Memory };

    fn from(_memory: Memory) -> RestoreError {
        RestoreError::Memory
    }
}

/// Whoever is told how far a house has come that goes on from a history.
pub trait Progress {
    /// So many of all its entries are taken, and the next one isn't yet.
    fn reached(&mut self, taken: u64, all: u64);
}

/// Nobody.
#[derive(Clone, Copy, Debug)]
pub struct Nobody;

impl Progress for Nobody {
    fn reached(&mut self, _taken: u64, _all: u64) {}
}

/// What a house of these entries stands on.
pub(crate) fn replayed<V: Version, H: Home, R: Threads + Sync, P: Progress>(
    rt: &R,
    alloc: Global,
    blank: Blank,
    seats: u32,
    entries: &[Entry],
    progress: &mut P,
) -> Result<Restoring<V, H>, RestoreError>
    requires ledger { (blank.name ≡ H.name) × (blank.parts ≡ H.parts) }
    requires seats { (H.all ≡ seats) × (H.parts ≡ seats) }
    ensures all { IfOk result (λ r. r.history ≡ entries.now) }
    ensures made { IfOk result (λ _. IsMade H.all entries.now) }
    ensures unmade { IfErr result (IsUnmade H.all entries.now) }
{
    let mut restoring = Restoring::new(alloc, blank, seats)?;
    for at in 0..entries.len() {
        progress.reached(at as u64, entries.len() as u64);
        if !restoring.take(rt, &entries[at])? {
            return Err(RestoreError::Illegal { at: at as u64 });
        }
    }
    Ok(restoring)
}
