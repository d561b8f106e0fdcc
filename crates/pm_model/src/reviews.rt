//! What reviews answer, and what kept reviews are of.

use crate::elements::ElementId;
use crate::lists::ItemList;
use crate::names::Name;
use crate::rights::Rights;

/// An element and the rights that someone has on it, or a user and the rights that the user has on something.
#[derive(Clone, Copy, Debug, PartialEq, Eq)]
pub struct Pair {
    pub element: ElementId,
    pub rights: Rights,
}

/// A list of such pairs.
pub type PairList = ItemList<Pair>;

/// What a review that is kept is of, by its name or its number: what a user may do, or who may do something to an element.
#[derive(Clone, Copy, PartialEq, Eq)]
pub enum ReviewOf<N> {
    Caps(N),
    Entries(N),
}

/// What becomes of an element in the list of a kept review: its name, and its rights in the list before and after. The set is
/// empty where the list doesn't have the element.
#[derive(Clone, Copy, PartialEq, Eq)]
pub struct Changed {
    pub name: Name,
    pub old: Rights,
    pub new: Rights,
}

/// A list of what becomes of elements.
pub type ChangeList = ItemList<Changed>;

/// How many pairs of a right and an element each of several users has.
pub type CountList = ItemList<u64>;
