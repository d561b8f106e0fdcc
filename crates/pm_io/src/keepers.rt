//! Keepers of accepted requests: in memory, where chosen calls fail, and one that keeps nothing.

ghost use Rattle.std.specs.Prelude.{◌≡◌, ◌↔◌, ◌++◌, ◌∷◌, [], Some, Err, option_map, IfOk, IsOk, OnOk, OnErr, Contains};
ghost use Rattle.pm_model.specs.Causes.{HasKeepCause, raised};
ghost use Rattle.pm_io.specs.Devices.{faults_kept};

use crate::counting::raise;
use crate::failing::Schedule;
use pm_model::{Entry, ItemList, Keep, KeepError, Memory};
use std::alloc::Global;
use std::marker::Model;

/// Entries in memory. The calls whose numbers it was given fail, and no others.
pub struct MemKeep {
    entries: ItemList<Entry>,
    schedule: Schedule,
    faults: u64,
}

impl Drop for MemKeep {
    fn drop(self) {
        let MemKeep {
            entries: _,
            schedule: _,
            faults: _,
        } = self;
    }
}

impl Model for MemKeep {
    ghost use Rattle.pm_io.specs.Devices.{FailingKeeper};

    ghost Value = { FailingKeeper };

    ghost view = { λ k. record { entries = k.entries; failures = k.schedule; faults = k.faults } };
}

// Puts a copy of the entry at the end.
fn append(entries: &mut ItemList<Entry>, entry: &Entry) -> Result<(), Memory>
    ensures ok { OnOk result (entries.new ≡ entries.old ++ entry.now ∷ []) }
    ensures err { OnErr result (entries.new ≡ entries.old) }
{
    let same = entry.copy()?;
    entries.push(same)
}

impl MemKeep {
    /// A keeper of no entry so far, whose calls of these numbers, from 1 on, are to fail.
    pub fn new(alloc: Global, failing: &[u64]) -> Result<MemKeep, Memory>
        ensures { IfOk result (λ k. k ≡ record { entries = []; failures = record { failing = failing.now; calls = 0 }; faults = 0 }) }
    {
        Ok(MemKeep {
            entries: ItemList::new(alloc),
            schedule: Schedule::new(alloc, failing)?,
            faults: 0,
        })
    }

    /// The entries that it keeps.
    pub fn entries(&self) -> &[Entry]
        ensures { result.now ≡ self.now.entries }
    {
        self.entries.as_slice()
    }
}

impl Keep for MemKeep {
    ghost use Rattle.std.specs.Prelude.{Some};

    ghost kept = { λ k. Some k.entries };

    ghost faults = { λ k. k.faults };

    fn keep(&mut self, _at: u64, entry: &Entry) -> Result<(), KeepError>
        ensures ok { OnOk result (Some self.new.entries ≡ option_map (λ entries. entries ++ entry.now ∷ []) (Some self.old.entries)) }
        ensures err { OnErr result (Some self.new.entries ≡ Some self.old.entries) }
        ensures cause { HasKeepCause self.old.faults self.new.faults result }
        ensures listed { (result ≡ Err KeepError.Failed) ↔ Contains self.old.failures.failing self.new.failures.calls }
        ensures calls { self.new.failures ≡ record self.old.failures { calls = raised self.old.failures.calls } }
        ensures faults { self.new.faults ≡ faults_kept self.old.faults result }
    {
        if self.schedule.next_fails() {
            raise(&mut self.faults);
            return Err(KeepError::Failed);
        }
        match append(&mut self.entries, entry) {
            Ok(()) => Ok(()),
            Err(Memory) => Err(KeepError::Memory),
        }
    }
}

/// Keeps nothing, and never fails.
#[derive(Clone, Copy, Debug)]
pub struct NoKeep;

impl Keep for NoKeep {
    ghost use Rattle.pm_io.specs.Devices.{untold};

    ghost kept = { λ _. untold };

    ghost faults = { λ _. 0 };

    fn keep(&mut self, _at: u64, _entry: &Entry) -> Result<(), KeepError>
        ensures ok { OnOk result (untold ≡ option_map (λ entries. entries ++ _entry.now ∷ []) untold) }
        ensures err { OnErr result (untold ≡ untold) }
        ensures cause { HasKeepCause 0 0 result }
        ensures never { IsOk result }
    {
        Ok(())
    }
}
