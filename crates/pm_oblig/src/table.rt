//! The list of obligations.

ghost use Rattle.std.specs.Prelude.{◌≡◌, ◌≢◌, ◌<◌, ◌≤◌, [], ◌∷◌, ◌++◌, true, None, Some, OnOk, OnErr, IfOk, IfErr, IfSome, IsOk, length, slice_get, take, drop, option_map};
ghost use Rattle.std.specs.Option.{option_and_then, option_copied};
ghost use Rattle.std.specs.List.{list_any, remove};
ghost use Rattle.pm_model.specs.Results.{first_of};
ghost use Rattle.pm_model.specs.Effect.{IsCause};
ghost use Rattle.pm_model.specs.Obligations.{max_obligations, is_called, place_called, oblige_checks, concerns};
ghost use Rattle.pm_oblig.specs.Awaited.{KnowsTargets};
ghost use Rattle.pm_oblig.specs.Told.{told};

use crate::errors::ObligError;
use crate::items::{is_named, place, take};
use crate::known;
use crate::targets::Targets;
use pm_model::{ElementId, Memory, Name, Obligation};
use pm_pages::PageList;
use std::alloc::Global;
use std::marker::Model;

/// How many obligations stand in a page. A change makes one page its own, with its responses: so few.
const ROOM: usize = 16;

/// The obligations in order of creation: at most 1,024. Contracts see the list, and whether it shares its pages with
/// copies: where it stands alone, nothing is taken away at the cost of memory.
pub struct Obligations {
    items: PageList<Obligation>,
    known: PageList<Targets>,
}

impl Drop for Obligations {
    fn drop(self) {
        let Obligations { items: _, known: _ } = self;
    }
}

impl Model for Obligations {
    ghost use Rattle.pm_model.specs.declared.obligations.Obligation.{Obligation};
    ghost use Rattle.pm_pages.specs.Paged.{Paged};

    ghost Value = { Paged Obligation };

    ghost use Rattle.pm_oblig.specs.Kept.{IsKept};

    ghost view = { λ t. t.items };

    ghost invariant = { IsKept };
}

impl Obligations {
    /// The list without obligations, which takes no memory.
    #[tactic(auto, using(crate::proofs::Knowing::none_known))]
    pub fn new(alloc: Global) -> Obligations
        ensures items { result.items ≡ [] }
        ensures alone { result.alone ≡ true }
    {
        Obligations {
            items: PageList::new(alloc, ROOM),
            known: PageList::new(alloc, ROOM),
        }
    }

    /// How many there are.
    pub fn len(&self) -> usize
        ensures count { result ≡ length self.now.items }
        ensures few { result ≤ max_obligations }
    {
        self.items.len()
    }

    /// The obligation at a place from 0; None exactly where there is none.
    pub fn get(&self, i: usize) -> Option<&Obligation>
        ensures { option_copied result ≡ slice_get self.now.items i }
    {
        self.items.get(i)
    }

    /// The obligation at a place that there is.
    pub fn at(&self, i: usize) -> &Obligation
        requires { i < length self.now.items }
        ensures { slice_get self.now.items i ≡ Some result.now }
    {
        self.items.at(i)
    }

    /// The obligations from a place on that stand together, so that a walk finds no place twice.
    pub fn obligations_from(&self, i: usize) -> &[Obligation]
        requires { i < length self.now.items }
        ensures items { result.now ≡ take (length result.now) (drop i self.now.items) }
        ensures some { 0 < length result.now }
    {
        self.items.run(i)
    }

    /// What the obligations that wait for an operation give as targets; None only where none waits for it. Each that
    /// does is told of, and maybe some that were withdrawn. Looks at each operation that is waited for.
    pub fn targets_of(&self, operation: Name) -> Option<&Targets>
        ensures { KnowsTargets self.now.items operation (option_copied result) }
    {
        known::find(&self.known, operation)
    }

    /// Makes an obligation, behind the others. `NameTaken` and `Full` come where `check_oblige` says so, `Memory` else.
    pub fn oblige(&mut self, item: Obligation) -> Result<(), ObligError>
        ensures fits { OnOk result (first_of (oblige_checks self.old.items item) ≡ None) }
        ensures ok { OnOk result (self.new.items ≡ self.old.items ++ item ∷ []) }
        ensures alone { self.new.alone ≡ self.old.alone }
        ensures refused { IfErr result (λ e. IsCause (first_of (oblige_checks self.old.items item)) (told e)) }
        ensures err { OnErr result (self.new ≡ self.old) }
    {
        self.check_oblige(&item)?;
        known::push(&mut self.items, &mut self.known, item).map_err(|_| ObligError::Memory)
    }

    /// Takes the obligation of the name away and gives it. `Absent` comes where none has the name; the only other error
    /// is `Memory`.
    pub fn withdraw(&mut self, name: Name) -> Result<Obligation, ObligError>
        ensures stood { IfOk result (λ item. option_and_then (slice_get self.old.items) (place_called self.old.items name) ≡ Some item) }
        ensures ok { OnOk result (Some self.new.items ≡ option_map (remove self.old.items) (place_called self.old.items name)) }
        ensures alone { self.new.alone ≡ self.old.alone }
        ensures absent { IfErr result (λ e. e ≢ ObligError.Memory → e ≡ ObligError.Absent) }
        ensures none { IfErr result (λ e. e ≡ ObligError.Absent → place_called self.old.items name ≡ None) }
        ensures no_memory { self.old.alone ≡ true → IfErr result (λ e. e ≢ ObligError.Memory) }
        ensures err { OnErr result (self.new.items ≡ self.old.items) }
    {
        match self.find(name) {
            Some(index) => self.withdraw_at(index).map_err(|_| ObligError::Memory),
            None => Err(ObligError::Absent),
        }
    }

    /// Takes the obligation at a place from 0 away and gives it. The others keep their order. It takes no memory where
    /// the list stands alone.
    pub fn withdraw_at(&mut self, index: u32) -> Result<Obligation, Memory>
        requires { index < length self.old.items }
        ensures item { IfOk result (λ item. slice_get self.old.items index ≡ Some item) }
        ensures rest { OnOk result (self.new.items ≡ remove self.old.items index) }
        ensures alone { self.new.alone ≡ self.old.alone }
        ensures sure { self.old.alone ≡ true → IsOk result }
        ensures err { OnErr result (self.new.items ≡ self.old.items) }
    {
        take(&mut self.items, index as usize)
    }

    /// The place from 0 of the obligation of the name; None exactly where none has it. Looks at each.
    pub fn find(&self, name: Name) -> Option<u32>
        ensures value { result ≡ place_called self.now.items name }
        ensures below { IfSome result (λ i. i < length self.now.items) }
    {
        let i = place(&self.items, name)?;
        Some(i as u32)
    }

    /// Whether some obligation has the element as its author or in its pattern.
    pub fn names(&self, id: ElementId) -> bool
        ensures { result ≡ list_any (concerns id) self.now.items }
    {
        is_named(&self.items, id)
    }

    /// The same list once more. It shares the pages that are shared.
    pub fn copy(&self) -> Result<Obligations, Memory>
        ensures { IfOk result (λ same. same.items ≡ self.now.items) }
    {
        Ok(Obligations {
            items: self.items.copy()?,
            known: self.known.copy()?,
        })
    }

    /// Lets copies share the obligations. It takes memory for each page that no copy shares. On Memory some pages may be
    /// shared.
    pub fn share(&mut self) -> Result<(), Memory>
        ensures { self.new.items ≡ self.old.items }
    {
        self.known.share()?;
        self.items.share()
    }

    /// Whether some obligation has the name.
    pub(crate) fn has_name(&self, name: Name) -> bool
        ensures { result ≡ list_any (is_called name) self.now.items }
    {
        place(&self.items, name).is_some()
    }
}
