//! The slots, one for each number: free, or with an element.

ghost use Rattle.std.specs.Prelude.{◌≡◌, ◌==◌, ◌<◌, ◌≤◌, [], true, Some, None, IfSome, IsOk, OnOk, is_some, length, slice_get};
ghost use Rattle.std.specs.List.{list_any};
ghost use Rattle.pm_model.specs.Effect.{max_elements};
ghost use Rattle.pm_model.specs.Formed.{IsLive};
ghost use Rattle.pm_pages.specs.Paged.{IsOwn};
ghost use Rattle.pm_elements.specs.Checks.{least_from};
ghost use Rattle.pm_elements.specs.Slots.{slot_at, shown, parents_of, children_of};

use crate::containers::Containers;
use pm_model::{ElementId, Kind, Memory, Name};
use pm_pages::{CopyOf, LeafList};
use std::alloc::Global;

/// An element, what it is assigned to, and how many are assigned to it.
pub(crate) struct Slot {
    pub kind: Kind,
    pub name: Name,
    pub parents: Containers,
    pub children: u32,
}

impl Drop for Slot {
    fn drop(self) {
        let Slot {
            kind: _,
            name: _,
            parents: _,
            children: _,
        } = self;
    }
}

/// The slots, in leaves that copies share.
pub(crate) type Slots = LeafList<Option<Slot>>;

impl CopyOf for Slot {
    fn copied(&self) -> Result<Slot, Memory> {
        Ok(Slot {
            kind: self.kind,
            name: self.name,
            parents: self.parents.copy()?,
            children: self.children,
        })
    }
}

/// No slots yet.
pub(crate) fn no_slots(alloc: Global) -> Slots
    ensures items { result.items ≡ [] }
    ensures alone { result.alone ≡ true }
{
    LeafList::new(alloc)
}

/// Whether the slot of a number is taken.
pub(crate) fn is_taken(slots: &Slots, id: ElementId) -> bool
    ensures { result ≡ is_some (slot_at slots.now.items id) }
{
    matches!(slots.get(id.number() as usize), Some(Some(_)))
}

/// The slot of a live number.
#[tactic(auto, using(crate::proofs::Shown::slot_below, crate::proofs::Shown::slot_taken))]
pub(crate) fn taken_slot(slots: &Slots, id: ElementId) -> &Slot
    requires { IsLive (shown slots.now.items) id }
    ensures { slot_at slots.now.items id ≡ Some result.now }
{
    slots.at(id.number() as usize).as_ref().unwrap()
}

/// The element that a live element is assigned to at a place, in order of assignment.
pub(crate) fn parent_at(slots: &Slots, x: ElementId, i: usize) -> ElementId
    requires live { IsLive (shown slots.now.items) x }
    requires within { i < length (parents_of (slot_at slots.now.items x)) }
    ensures { slice_get (parents_of (slot_at slots.now.items x)) i ≡ Some result }
{
    taken_slot(slots, x).parents.at(i)
}

/// Whether x is assigned to y, by what x is assigned to.
pub(crate) fn has_parent(slots: &Slots, x: ElementId, y: ElementId) -> bool
    requires { IsLive (shown slots.now.items) x }
    ensures { result ≡ list_any (λ z. z == y) (parents_of (slot_at slots.now.items x)) }
{
    taken_slot(slots, x).parents.has(y)
}

/// How many elements x is assigned to.
pub(crate) fn parent_count(slots: &Slots, x: ElementId) -> usize
    requires { IsLive (shown slots.now.items) x }
    ensures { result ≡ length (parents_of (slot_at slots.now.items x)) }
{
    taken_slot(slots, x).parents.len()
}

/// How many elements are assigned to y.
pub(crate) fn child_count(slots: &Slots, y: ElementId) -> u32
    requires { IsLive (shown slots.now.items) y }
    ensures { result ≡ children_of (slot_at slots.now.items y) }
{
    taken_slot(slots, y).children
}

/// Lets two slots be written. On Memory the slots are as before.
pub(crate) fn own_both(slots: &mut Slots, x: ElementId, y: ElementId) -> Result<(), Memory>
    requires x_within { x < length slots.old.items }
    requires y_within { y < length slots.old.items }
    ensures items { slots.new.items ≡ slots.old.items }
    ensures x_own { OnOk result (IsOwn slots.new x) }
    ensures y_own { OnOk result (IsOwn slots.new y) }
    ensures sure { slots.old.alone ≡ true → IsOk result }
    ensures alone { slots.new.alone ≡ slots.old.alone }
{
    slots.own_at(x.number() as usize)?;
    slots.own_at(y.number() as usize)
}

/// The least live number that is at least `from`.
#[tactic(auto, using(crate::proofs::Nexts::next_here, crate::proofs::Nexts::next_later, crate::proofs::Nexts::next_none))]
pub(crate) fn next_taken(slots: &Slots, from: u32) -> Option<ElementId>
    requires { length slots.now.items ≤ max_elements }
    ensures number { result ≡ least_from (shown slots.now.items) from }
    ensures within { IfSome result (λ n. n < length slots.now.items) }
{
    for n in from as usize..slots.len() {
        if slots.at(n).is_some() {
            return Some(ElementId(n as u32));
        }
    }
    None
}
