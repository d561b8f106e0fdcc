//! Lists in which nothing stands twice.

ghost use Rattle.std.specs.Prelude.{◌≡◌, ◌++◌, ℕ, List};
ghost use Rattle.std.specs.List.{list_all};
ghost use Rattle.pm_policy.specs.Policy.{is_same};
ghost use Rattle.pm_policy.specs.Sound.{AreOnce, AreOnceAssigned, has_ends, opening_pairs};
ghost use Rattle.pm_sound.specs.Tells.{Tells};
ghost use Rattle.pm_sound.specs.Tests.{is_new};

use crate::errors::{SoundError, need};
use crate::opening::assignment;
use indexmap::IndexSet;
use pm_by_name::{are_assignments_in_order, are_associations_in_order};
use pm_model::Name;
use pm_policy::{DocAssignment, DocAssociation, DocProhibition};
use std::alloc::Global;
use std::hash::Hash;

/// An item of which a list has one for each key.
pub(crate) trait Keyed {
    type Key: Hash + Eq + Copy + Drop;

    ghost key: { Self → Self.Key };

    fn key(&self) -> Self::Key
        ensures { result ≡ key self.now };
}

impl Keyed for DocAssignment {
    type Key = (Name, Name);

    ghost key = { λ p. (p.from, p.to) };

    fn key(&self) -> (Name, Name) {
        (self.from, self.to)
    }
}

impl Keyed for DocAssociation {
    type Key = (Name, Name);

    ghost key = { λ a. (a.ua, a.at) };

    fn key(&self) -> (Name, Name) {
        (self.ua, self.at)
    }
}

impl Keyed for DocProhibition {
    type Key = Name;

    ghost key = { λ p. p.name };

    fn key(&self) -> Name {
        self.name
    }
}

/// Whether no two items have one key.
pub(crate) fn check_once<T: Keyed>(alloc: Global, items: &[T]) -> Result<(), SoundError>
    ensures { Tells result (AreOnce (λ x y. T.Key.eq (T.key x) (T.key y)) items.now) }
{
    let mut seen = IndexSet::with_capacity(alloc, items.len())?;
    for item in items {
        if !seen.insert(item.key())? {
            return Err(SoundError::Unsound);
        }
    }
    Ok(())
}

/// Whether no two of the assignments are the same. Where each stands before the next, nothing is kept to tell it.
fn check_assigned(alloc: Global, pairs: &[DocAssignment]) -> Result<(), SoundError>
    ensures { Tells result (AreOnceAssigned pairs.now) }
{
    if are_assignments_in_order(pairs) {
        return Ok(());
    }
    check_once(alloc, pairs)
}

fn is_same(a: &DocAssignment, b: &DocAssignment) -> bool
    ensures { result ≡ is_same a.now b.now }
{
    a.from == b.from && a.to == b.to
}

/// Whether none of the assignments is one of the opening.
fn are_new(pairs: &[DocAssignment]) -> bool
    ensures { result ≡ list_all is_new pairs.now }
{
    let class = assignment("pm_admins", "pm");
    let root = assignment("root", "pm_admins");
    pairs
        .iter()
        .all(|pair| !is_same(&class, pair) && !is_same(&root, pair))
}

/// Whether no two of the assignments are the same, and none is one of the opening.
pub(crate) fn check_assigned_once(alloc: Global, pairs: &[DocAssignment]) -> Result<(), SoundError>
    ensures { Tells result (AreOnceAssigned (opening_pairs ++ pairs.now)) }
{
    need(are_new(pairs))?;
    check_assigned(alloc, pairs)
}

/// Whether no two of the associations join the same pair. Where each stands before the next, nothing is kept to tell it.
pub(crate) fn check_associated_once(
    alloc: Global,
    associations: &[DocAssociation],
) -> Result<(), SoundError>
    ensures { Tells result (AreOnce has_ends associations.now) }
{
    if are_associations_in_order(associations) {
        return Ok(());
    }
    check_once(alloc, associations)
}
