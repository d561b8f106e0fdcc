//! An element goes with its assignments.

ghost use Rattle.std.specs.Prelude.{◌≡◌, ◌<◌, ℕ, true, Some, None, IsSome, IfSome, IsOk, OnOk, OnErr, slice_get, slice_set};
ghost use Rattle.pm_pages.specs.Paged.{IsOwn, Keeps};
ghost use Rattle.pm_names.specs.Named.{Renames};
ghost use Rattle.pm_elements.specs.Slots.{slot_at, parents_of, released, removed};

use crate::links::drop_child;
use crate::slots::{Slot, Slots, parent_at, parent_count, taken_slot};
use pm_model::{ElementId, Memory};
use pm_names::Names;

/// Lets the slots that an element is assigned to be written. On Memory the slots are as before.
#[tactic(auto, using(crate::proofs::Shown::taken_shown))]
fn own_parents(slots: &mut Slots, id: ElementId) -> Result<(), Memory>
    requires live { IsSome (slot_at slots.old.items id) }
    requires parents_live { (i y : ℕ) → slice_get (parents_of (slot_at slots.old.items id)) i ≡ Some y → IsSome (slot_at slots.old.items y) }
    ensures items { slots.new.items ≡ slots.old.items }
    ensures keeps { Keeps slots.old slots.new }
    ensures ok { OnOk result ((i y : ℕ) → slice_get (parents_of (slot_at slots.old.items id)) i ≡ Some y → IsOwn slots.new y) }
    ensures sure { slots.old.alone ≡ true → IsOk result }
    ensures alone { slots.new.alone ≡ slots.old.alone }
{
    for i in 0..parent_count(slots, id) {
        let parent = parent_at(slots, id, i);
        slots.own_at(parent.number() as usize)?;
    }
    Ok(())
}

/// Lets the slot of an element be written, and those that it is assigned to. On Memory the slots are
/// as before.
fn own_all(slots: &mut Slots, id: ElementId) -> Result<(), Memory>
    requires live { IsSome (slot_at slots.old.items id) }
    requires parents_live { (i y : ℕ) → slice_get (parents_of (slot_at slots.old.items id)) i ≡ Some y → IsSome (slot_at slots.old.items y) }
    ensures items { slots.new.items ≡ slots.old.items }
    ensures own { OnOk result (IsOwn slots.new id) }
    ensures parents_own { OnOk result ((i y : ℕ) → slice_get (parents_of (slot_at slots.old.items id)) i ≡ Some y → IsOwn slots.new y) }
    ensures sure { slots.old.alone ≡ true → IsOk result }
    ensures alone { slots.new.alone ≡ slots.old.alone }
{
    slots.own_at(id.number() as usize)?;
    own_parents(slots, id)
}

/// Takes the slot of a number, which is free then.
fn take_slot(slots: &mut Slots, id: ElementId) -> Slot
    requires live { IsSome (slot_at slots.old.items id) }
    requires own { IsOwn slots.old id }
    ensures slot { slot_at slots.old.items id ≡ Some result }
    ensures slots { slots.new ≡ record slots.old { items = slice_set slots.old.items id None } }
{
    slots.edit(id.number() as usize).take().unwrap()
}

/// Counts one child less of each of these.
fn release(slots: &mut Slots, parents: &[u32])
    requires live { (i y : ℕ) → slice_get parents.now i ≡ Some y → IsSome (slot_at slots.old.items y) }
    requires own { (i y : ℕ) → slice_get parents.now i ≡ Some y → IsOwn slots.old y }
    ensures { slots.new ≡ record slots.old { items = released parents.now slots.old.items } }
{
    for parent in parents {
        drop_child(slots, ElementId(*parent));
    }
}

/// Takes the slot of an element, and counts it nowhere any more.
fn free(slots: &mut Slots, id: ElementId)
    requires live { IsSome (slot_at slots.old.items id) }
    requires parents_live { (i y : ℕ) → slice_get (parents_of (slot_at slots.old.items id)) i ≡ Some y → IsSome (slot_at (slice_set slots.old.items id None) y) }
    requires own { IsOwn slots.old id }
    requires parents_own { (i y : ℕ) → slice_get (parents_of (slot_at slots.old.items id)) i ≡ Some y → IsOwn slots.old y }
    ensures { slots.new ≡ record slots.old { items = removed id slots.old.items } }
{
    let slot = take_slot(slots, id);
    release(slots, slot.parents.numbers());
}

/// Takes an element and its assignments out. What it is assigned to is live, and isn't itself. On
/// Memory nothing is changed.
#[tactic(auto, using(crate::proofs::Shown::taken_shown))]
pub(crate) fn take_out(slots: &mut Slots, names: &mut Names, id: ElementId) -> Result<(), Memory>
    requires live { IsSome (slot_at slots.old.items id) }
    requires parents_live { (i y : ℕ) → slice_get (parents_of (slot_at slots.old.items id)) i ≡ Some y → IsSome (slot_at (slice_set slots.old.items id None) y) }
    ensures slots { OnOk result (slots.new.items ≡ removed id slots.old.items) }
    ensures names { OnOk result (IfSome (slot_at slots.old.items id) (λ s. Renames s.name None names.old.items names.new.items)) }
    ensures slots_same { OnErr result (slots.new.items ≡ slots.old.items) }
    ensures names_same { OnErr result (names.new.items ≡ names.old.items) }
    ensures sure { slots.old.alone ≡ true → names.old.alone ≡ true → IsOk result }
    ensures slots_alone { slots.new.alone ≡ slots.old.alone }
    ensures names_alone { names.new.alone ≡ names.old.alone }
{
    own_all(slots, id)?;
    let name = taken_slot(slots, id).name;
    names.remove(&name)?;
    free(slots, id);
    Ok(())
}
