//! The lists of all kept reviews.

ghost use Rattle.std.specs.Prelude.{◌≡◌, ◌+◌, ◌-◌, ◌^◌, ◌≤◌, ◌==◌, ◌&&◌, [], false, None, length, min, IfOk, OnOk, OnErr};
ghost use Rattle.std.specs.Option.{option_copied};
ghost use Rattle.pm_affect.specs.Lists.{AreKept, IsInOrder, Lists, all_copied, inserted, is_among, list_in, removed, subjects, was_in};
ghost use Rattle.pm_affect.specs.Puts.{cleared, place, with_row};
ghost use Rattle.pm_affect.specs.declared.region.Region.{Region};

use crate::items::Item;
use crate::region::Region;
use crate::sides::{
    all_subjects, copy_all, has_at, insert, is_written, list, next_place, put_across, put_all_at,
    remove, take_out,
};
use pm_model::{ElementId, Memory, PairList, PlaceList, ReviewOf};
use std::alloc::Global;
use std::marker::Model;

/// The lists of kept reviews: of each what it answers, and how many rights were judged for them. A review is found by what
/// it is of, and has one list at most. Contracts see the lists by rising subject; each is by rising number, and no set of
/// rights in it is empty.
///
/// Copies share each list until one of them changes it, so that a copy costs two pointers for each list, however long it is: one
/// to the list, and one to what it was when it was copied. Of a list that the copy writes to, both stay in memory as long as the copy.
pub struct KeptLists {
    caps: Vec<Item>,
    entries: Vec<Item>,
    asked: u64,
}

impl Drop for KeptLists {
    fn drop(self) {
        let KeptLists {
            caps: _,
            entries: _,
            asked: _,
        } = self;
    }
}

impl Model for KeptLists {
    ghost use Rattle.pm_affect.specs.Lists.{AreKept, Lists};

    ghost Value = { Lists };

    ghost view = { λ t. record { caps = t.caps.items; entries = t.entries.items; asked = t.asked } };

    ghost invariant = { λ t. AreKept (record { caps = t.caps.items; entries = t.entries.items; asked = t.asked }) };
}

impl KeptLists {
    /// No lists, for which nothing was judged. It takes no memory.
    pub fn new(alloc: Global) -> KeptLists
        ensures { result ≡ record { caps = []; entries = []; asked = 0 } }
    {
        KeptLists {
            caps: Vec::new(alloc),
            entries: Vec::new(alloc),
            asked: 0,
        }
    }

    /// The list of a review; None exactly where there is none. It is found by halving.
    pub fn list(&self, of: &ReviewOf<ElementId>) -> Option<&PairList>
        ensures { option_copied result ≡ list_in self.now of.now }
    {
        match of {
            ReviewOf::Caps(user) => list(&self.caps, *user),
            ReviewOf::Entries(element) => list(&self.entries, *element),
        }
    }

    /// Whether the list of a review may differ from what it was when it was last copied, or there is none, now or then. No pair of a
    /// list is looked at.
    pub fn is_written(&self, of: &ReviewOf<ElementId>) -> bool
        ensures { result ≡ false → was_in self.now of.now ≡ list_in self.now of.now }
    {
        match of {
            ReviewOf::Caps(user) => is_written(&self.caps, *user),
            ReviewOf::Entries(element) => is_written(&self.entries, *element),
        }
    }

    /// Keeps the list of a review that has none yet. On Memory all is as before, and the list is dropped.
    pub fn insert(&mut self, of: ReviewOf<ElementId>, list: PairList) -> Result<(), Memory>
        requires none { list_in self.old of ≡ None }
        requires order { IsInOrder 0 list }
        ensures ok { OnOk result (self.new ≡ inserted of list self.old) }
        ensures err { OnErr result (self.new ≡ self.old) }
    {
        match of {
            ReviewOf::Caps(user) => insert(&mut self.caps, user, list),
            ReviewOf::Entries(element) => insert(&mut self.entries, element, list),
        }
    }

    /// Keeps the list of a review no longer, where there is one. It takes no memory.
    pub fn remove(&mut self, of: ReviewOf<ElementId>)
        ensures { self.new ≡ removed of self.old }
    {
        match of {
            ReviewOf::Caps(user) => remove(&mut self.caps, user),
            ReviewOf::Entries(element) => remove(&mut self.entries, element),
        }
    }

    /// The same lists once more, each of which costs two pointers.
    pub fn copy(&self) -> Result<KeptLists, Memory>
        ensures { IfOk result (λ copy. copy ≡ all_copied self.now) }
    {
        let caps = copy_all(&self.caps)?;
        let entries = copy_all(&self.entries)?;
        Ok(KeptLists {
            caps,
            entries,
            asked: self.asked,
        })
    }

    /// Does nothing. Its contract is what the lists keep.
    pub fn kept(&self)
        ensures { AreKept self.now }
    {
        let _ = &self.caps;
    }

    /// How many rights were judged for them.
    pub fn asked(&self) -> u64
        ensures { result ≡ self.now.asked }
    {
        self.asked
    }

    /// Adds to that number, up to 2^64 - 1. Outside this crate [`update`](crate::update) alone adds to it, what its judge was
    /// asked.
    pub(crate) fn charge(&mut self, n: u64)
        ensures { self.new ≡ record self.old { asked = min (self.old.asked + n) (2 ^ 64 - 1) } }
    {
        self.asked = self.asked.saturating_add(n);
    }

    /// Whether no review is kept.
    pub fn is_empty(&self) -> bool
        ensures { result ≡ (length self.now.caps == 0 && length self.now.entries == 0) }
    {
        self.caps.is_empty() && self.entries.is_empty()
    }

    /// The lists of capabilities, by rising user.
    pub(crate) fn caps(&self) -> &[Item]
        ensures { result.now ≡ self.now.caps }
    {
        self.caps.as_slice()
    }

    /// Those of entries, by rising element.
    pub(crate) fn entries(&self) -> &[Item]
        ensures { result.now ≡ self.now.entries }
    {
        self.entries.as_slice()
    }

    /// How many capabilities of lower users are kept, from a place on that isn't behind it.
    pub(crate) fn next_caps(&self, from: usize, user: ElementId) -> usize
        requires { from ≤ place user (subjects self.now.caps) }
        ensures { result ≡ place user (subjects self.now.caps) }
    {
        next_place(&self.caps, from, user)
    }

    /// Whether the capabilities of the user are kept, whose place this is.
    pub(crate) fn has_caps(&self, i: usize, user: ElementId) -> bool
        requires { i ≡ place user (subjects self.now.caps) }
        ensures { result ≡ is_among (subjects self.now.caps) user }
    {
        has_at(&self.caps, i, user)
    }

    /// The elements whose entries are kept, by rising number.
    pub(crate) fn places(&self) -> Result<PlaceList, Memory>
        ensures { IfOk result (λ places. places ≡ subjects self.now.entries) }
    {
        all_subjects(&self.entries)
    }

    /// Puts the rights of a user on each element of a row into each list that has the pair in its scope; the place is the
    /// user's among the capabilities.
    pub(crate) fn put_row(
        &mut self,
        i: usize,
        user: ElementId,
        row: &PairList,
    ) -> Result<(), Memory>
        requires { i ≡ place user (subjects self.old.caps) }
        ensures { OnOk result (self.new ≡ with_row user row.now self.old) }
    {
        put_all_at(&mut self.caps, i, user, row)?;
        put_across(&mut self.entries, user, row)
    }

    /// Takes the element that was made or is gone out of each list.
    pub(crate) fn clear(&mut self, region: &Region) -> Result<(), Memory>
        ensures { OnOk result (self.new ≡ cleared region.now self.old) }
    {
        if let Region::One(x) = region {
            take_out(&mut self.caps, *x)?;
            take_out(&mut self.entries, *x)?;
        }
        Ok(())
    }
}
