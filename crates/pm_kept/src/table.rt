//! The table: kept reviews by number, with their last changes.

ghost use Rattle.std.specs.Prelude.{◌≡◌, ◌<◌, ◌==◌, [], true, None, Some, OnOk, OnErr, IfOk, IfErr, length, map, option_map, slice_get, slice_set};
ghost use Rattle.std.specs.List.{list_any};
ghost use Rattle.pm_model.specs.Results.{first_of};
ghost use Rattle.pm_model.specs.Effect.{IsCause};
ghost use Rattle.pm_model.specs.Formed.{RiseBelow};
ghost use Rattle.pm_model.specs.KeptReviews.{KeptReview, is_kept_of, keep_checks, kept_at, max_reviews, new_review, reviews, unkept, with_review, without_review};
ghost use Rattle.pm_kept.specs.Last.{lent, last_of};
ghost use Rattle.pm_kept.specs.Told.{told};

use crate::errors::KeptError;
use crate::items::Item;
use crate::places::{copy_all, find, has, has_subject, insert, remove, set_at, share_all};
use pm_model::{ChangeList, ElementId, Memory, ReviewOf};
use std::alloc::Global;
use std::marker::Model;

/// The kept reviews by rising number, at most 256: a review takes the least number that none has, so each number is below
/// 256. Contracts see the list. Copies share the lists of changes once `share` was called, so that a copy costs a few
/// numbers and a pointer for each review, however long these lists are.
pub struct KeptReviews {
    items: Vec<Item>,
}

impl Drop for KeptReviews {
    fn drop(self) {
        let KeptReviews { items: _ } = self;
    }
}

impl Model for KeptReviews {
    ghost use Rattle.std.specs.Prelude.{List, map};
    ghost use Rattle.pm_model.specs.Formed.{RiseBelow};
    ghost use Rattle.pm_model.specs.KeptReviews.{KeptReview, max_reviews};

    ghost Value = { List KeptReview };

    ghost view = { λ t. t.items.items };

    ghost invariant = { λ t. RiseBelow 0 (map (λ (k : KeptReview). k.number) t.items.items) max_reviews };
}

impl KeptReviews {
    /// The table without reviews, which takes no memory.
    pub fn new(alloc: Global) -> KeptReviews
        ensures { result ≡ [] }
    {
        KeptReviews {
            items: Vec::new(alloc),
        }
    }

    /// How many reviews are kept.
    pub fn len(&self) -> usize
        ensures { result ≡ length self.now }
    {
        self.items.len()
    }

    /// Whether none is kept.
    pub fn is_empty(&self) -> bool
        ensures count { result ≡ (length self.now == 0) }
        ensures none { result ≡ true → self.now ≡ [] }
    {
        self.items.is_empty()
    }

    /// Does nothing. Its contract is what the table keeps: numbers rise, and are below 256.
    pub fn numbered(&self)
        ensures { RiseBelow 0 (map (λ (k : KeptReview). k.number) self.now) max_reviews }
    {
        let _ = &self.items;
    }

    /// Keeps a review, which no entry has changed yet, and tells its number: the least that none has. `Already` and
    /// `Full` come where `check` says so; the only other error is `Memory`.
    pub fn keep(&mut self, of: ReviewOf<ElementId>) -> Result<u32, KeptError>
        ensures fits { OnOk result (first_of (keep_checks self.old of) ≡ None) }
        ensures ok { OnOk result (self.new ≡ with_review (new_review (unkept self.old) of) self.old) }
        ensures number { IfOk result (λ number. number ≡ unkept self.old) }
        ensures refused { IfErr result (λ e. IsCause (first_of (keep_checks self.old of)) (told e)) }
        ensures err { OnErr result (self.new ≡ self.old) }
    {
        self.check(&of)?;
        insert(&mut self.items, of).map_err(|_| KeptError::Memory)
    }

    /// Keeps the review of the number no longer, where there is one. It takes no memory.
    pub fn drop_review(&mut self, number: u32)
        ensures { self.new ≡ without_review number self.old }
    {
        remove(&mut self.items, number);
    }

    /// What the review of the number is of; None exactly where none has the number.
    pub fn of(&self, number: u32) -> Option<ReviewOf<ElementId>>
        ensures { result ≡ option_map (λ k. k.of) (kept_at self.now number) }
    {
        let item = find(&self.items, number)?;
        Some(item.of())
    }

    /// The version of the entry that changed the review of the number last, and what that changed: 0 and nothing where
    /// none has. None exactly where no review has the number.
    pub fn last(&self, number: u32) -> Option<(u64, &ChangeList)>
        ensures { option_map lent result ≡ option_map last_of (kept_at self.now number) }
    {
        let item = find(&self.items, number)?;
        Some((item.at(), item.changed()))
    }

    /// The number of the review at a place from 0, by rising number, and what it is of; None exactly where there is none.
    pub fn at(&self, i: usize) -> Option<(u32, ReviewOf<ElementId>)>
        ensures { result ≡ option_map (λ k. (k.number, k.of)) (slice_get self.now i) }
    {
        let item = self.items.get(i)?;
        Some((item.number(), item.of()))
    }

    /// Whether a review of the same is kept.
    pub fn has(&self, of: &ReviewOf<ElementId>) -> bool
        ensures { result ≡ list_any (is_kept_of of.now) self.now }
    {
        has(&self.items, of)
    }

    /// Whether a kept review is of the element.
    pub fn reviews(&self, id: ElementId) -> bool
        ensures { result ≡ list_any (reviews id) self.now }
    {
        has_subject(&self.items, id)
    }

    /// Makes this the last change of the review at a place. It takes no memory.
    pub fn set_last(&mut self, i: usize, version: u64, changes: ChangeList)
        requires { i < length self.old }
        ensures { (k : KeptReview) → slice_get self.old i ≡ Some k → self.new ≡ slice_set self.old i (record k { at = version; changed = changes }) }
    {
        set_at(&mut self.items, i, version, changes);
    }

    /// The same table once more. It shares the lists of changes that are shared.
    pub fn copy(&self) -> Result<KeptReviews, Memory>
        ensures { IfOk result (λ same. same ≡ self.now) }
    {
        Ok(KeptReviews {
            items: copy_all(&self.items)?,
        })
    }

    /// Lets copies share the lists of changes. It takes memory for each that no copy shares. On Memory some may be shared.
    pub fn share(&mut self) -> Result<(), Memory>
        ensures { self.new ≡ self.old }
    {
        share_all(&mut self.items)
    }
}
