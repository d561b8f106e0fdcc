//! One kept review.

ghost use Rattle.std.specs.Prelude.{◌≡◌, IfOk};
ghost use Rattle.pm_model.specs.KeptReviews.{new_review, subject, is_same};

use crate::changes::Changes;
use pm_model::{ChangeList, ElementId, Memory, ReviewOf};
use std::alloc::Global;
use std::marker::Model;

/// A review that is kept.
pub(crate) struct Item {
    number: u32,
    of: ReviewOf<ElementId>,
    at: u64,
    changed: Changes,
}

impl Drop for Item {
    fn drop(self) {
        let Item {
            number: _,
            of: _,
            at: _,
            changed: _,
        } = self;
    }
}

impl Model for Item {
    ghost use Rattle.pm_model.specs.KeptReviews.{KeptReview};

    ghost Value = { KeptReview };

    ghost view = { λ k. record { number = k.number; of = k.of; at = k.at; changed = k.changed } };
}

/// The element that a review is of.
pub(crate) fn subject(of: ReviewOf<ElementId>) -> ElementId
    ensures { result ≡ subject of }
{
    match of {
        ReviewOf::Caps(user) => user,
        ReviewOf::Entries(element) => element,
    }
}

/// Whether both are one review.
pub(crate) fn is_same(one: &ReviewOf<ElementId>, other: &ReviewOf<ElementId>) -> bool
    ensures { result ≡ is_same one.now other.now }
{
    match (one, other) {
        (ReviewOf::Caps(user), ReviewOf::Caps(held)) => user == held,
        (ReviewOf::Entries(element), ReviewOf::Entries(held)) => element == held,
        _ => false,
    }
}

impl Item {
    /// The review that no entry has changed yet, which takes no memory.
    pub(crate) fn new(alloc: Global, number: u32, of: ReviewOf<ElementId>) -> Item
        ensures { result ≡ new_review number of }
    {
        Item {
            number,
            of,
            at: 0,
            changed: Changes::new(ChangeList::new(alloc)),
        }
    }

    pub(crate) fn number(&self) -> u32
        ensures { result ≡ self.now.number }
    {
        self.number
    }

    pub(crate) fn of(&self) -> ReviewOf<ElementId>
        ensures { result ≡ self.now.of }
    {
        self.of
    }

    /// The version of the entry that changed it last; 0 where none has.
    pub(crate) fn at(&self) -> u64
        ensures { result ≡ self.now.at }
    {
        self.at
    }

    /// What that entry changed.
    pub(crate) fn changed(&self) -> &ChangeList
        ensures { result.now ≡ self.now.changed }
    {
        self.changed.list()
    }

    /// Makes this the last change.
    pub(crate) fn set_last(&mut self, at: u64, changed: ChangeList)
        ensures { self.new ≡ record self.old { at = at; changed = changed } }
    {
        self.at = at;
        self.changed = Changes::new(changed);
    }

    pub(crate) fn copy(&self) -> Result<Item, Memory>
        ensures { IfOk result (λ same. same ≡ self.now) }
    {
        Ok(Item {
            number: self.number,
            of: self.of,
            at: self.at,
            changed: self.changed.copy()?,
        })
    }

    pub(crate) fn share(&mut self) -> Result<(), Memory>
        ensures { self.new ≡ self.old }
    {
        self.changed.share()
    }
}
