//! A journal as a keeper of what a desk accepts.

ghost use Rattle.std.specs.Prelude.{◌≡◌, ◌<◌, ◌≤◌, ◌+◌, ◌++◌, ◌∷◌, [], true, ℕ, List, Option, length, option_map, IfSome, OnOk, OnErr};
ghost use Rattle.pm_disk.specs.Disks.{Each, Leaves};
ghost use Rattle.pm_model.specs.Asked.{asked};
ghost use Rattle.pm_model.specs.Causes.{HasKeepCause, raised};
ghost use Rattle.pm_print.specs.Askable.{asking};
ghost use Rattle.pm_journal.specs.Kept.{IsRecovered, StandsForEntry, told_entries};

use crate::journal::Journal;
use crate::lines::line_of;
use pm_disk::Disk;
use pm_lines::{asked_is_askable, printed_is_no_longer};
use pm_model::{Entry, Keep, KeepError, Memory};
use std::alloc::Global;

const MOST: u64 = 262_144;

/// Keeps entries in a journal. Contracts see the journal, and how often the keeper itself has refused an entry.
///
/// An entry is refused, which counts as a fault and reaches no disk, where its line would have more than 8,192 bytes, or where
/// no line asks for its request; and where 262,144 are kept. No request that a line of at most 8,192 bytes asks for is refused so
/// before that.
pub struct Keeper<D: Disk + Drop> {
    alloc: Global,
    journal: Journal<D>,
    refused: u64,
}

impl<D: Disk + Drop> Drop for Keeper<D> {
    fn drop(self) {
        let Keeper {
            alloc: _,
            journal: _,
            refused: _,
        } = self;
    }
}

impl<D: Disk + Drop> Keeper<D> {
    /// A keeper over this journal.
    pub fn new(alloc: Global, journal: Journal<D>) -> Keeper<D>
        ensures journal { result.journal ≡ journal }
        ensures refused { result.refused ≡ 0 }
    {
        Keeper {
            alloc,
            journal,
            refused: 0,
        }
    }

    /// Whatever a crash leaves now stands for the entries that it keeps, in their order, or for these and one more.
    pub fn recovers(&self)
        ensures { D.tells ≡ true → IfSome (told_entries D.tells self.now.journal.kept) (λ entries. Each (D.may_leave self.now.journal.disk) (IsRecovered entries)) }
    {
        self.journal.stands();
    }

    /// The journal.
    pub fn journal(&self) -> &Journal<D>
        ensures { result.now ≡ self.now.journal }
    {
        &self.journal
    }
}

fn raise(count: &mut u64)
    ensures more { count.new ≡ raised count.old }
    ensures later { count.old ≤ count.new }
{
    *count = count.saturating_add(1);
}

impl<D: Disk + Drop> Keep for Keeper<D> {
    ghost kept = { λ k. told_entries D.tells k.journal.kept };

    ghost faults = { λ k. D.faults k.journal.disk + k.refused };

    /// At any moment a crash leaves bytes that stand for the kept entries, or for these and one more: this one, or one that could
    /// not be kept before.
    #[tactic(auto, using(crate::proofs::Keeping::leaves_still, crate::proofs::Keeping::leaves_entry))]
    fn keep(&mut self, _at: u64, entry: &Entry) -> Result<(), KeepError>
        ensures ok { OnOk result (told_entries D.tells self.new.journal.kept ≡ option_map (λ entries. entries ++ entry.now ∷ []) (told_entries D.tells self.old.journal.kept)) }
        ensures err { OnErr result (told_entries D.tells self.new.journal.kept ≡ told_entries D.tells self.old.journal.kept) }
        ensures cause { HasKeepCause (D.faults self.old.journal.disk + self.old.refused) (D.faults self.new.journal.disk + self.new.refused) result }
        ensures asked { (line : List ℕ) (id : Option ℕ) → asked line ≡ asking id entry.now.request → length line ≤ 8192 → self.old.journal.count < 262144 → self.new.refused ≡ self.old.refused }
        ensures any_moment { D.tells ≡ true → Leaves D.moment D.left_since self.old.journal.disk self.new.journal.disk (StandsForEntry self.old.journal.kept self.old.journal.lost entry.now) }
    {
        self.journal.stands();
        let Ok(line) = line_of(self.alloc, entry) else {
            return Err(KeepError::Memory);
        };
        let Some(line) = line else {
            asked_is_askable();
            printed_is_no_longer();
            raise(&mut self.refused);
            return Err(KeepError::Failed);
        };
        if self.journal.count() >= MOST {
            raise(&mut self.refused);
            return Err(KeepError::Failed);
        }
        self.journal
            .append(self.alloc, entry.seat, entry.nth, &line)
    }
}
