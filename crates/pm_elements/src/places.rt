//! A new element takes the least number that is free.

ghost use Rattle.std.specs.Prelude.{◌≡◌, ◌≤◌, ◌<◌, ◌^◌, ◌-◌, Some, None, IsSome, IfSome, OnOk, OnErr, IfOk, length, option_to_list, slice_set, bytes_eq};
ghost use Rattle.std.specs.Map.{lookup};
ghost use Rattle.pm_model.specs.Effect.{max_elements};
ghost use Rattle.pm_pages.specs.Paged.{IsOwn, Keeps};
ghost use Rattle.pm_names.specs.Named.{Renames};
ghost use Rattle.pm_elements.specs.Slots.{shown, slot_at, children_of, first_free, opened, new_slot, joined};

use crate::containers::Containers;
use crate::links::add_child;
use crate::slots::{Slot, Slots};
use pm_model::{ElementId, Kind, Memory, Name};
use pm_names::Names;
use std::alloc::Global;

/// A new element, and its container, where it has one.
#[derive(Drop)]
pub(crate) struct NewElement {
    pub kind: Kind,
    pub name: Name,
    pub into: Option<ElementId>,
}

impl NewElement {
    /// How many assignments it brings.
    pub(crate) fn links(&self) -> usize
        ensures { result ≡ length (option_to_list self.now.into) }
    {
        match self.into {
            Some(_) => 1,
            None => 0,
        }
    }
}

/// The first of these slots that is free, or their number.
fn free_in(slots: &[Option<Slot>]) -> usize
    ensures answer { result ≡ first_free slots.now }
    ensures within { result ≤ length slots.now }
{
    for n in 0..slots.len() {
        if slots[n].is_none() {
            return n;
        }
    }
    slots.len()
}

/// The first slot that is free, or the number of slots. Those before `from` are taken.
fn first_free(slots: &Slots, from: usize) -> usize
    requires { from ≤ first_free slots.now.items }
    ensures answer { result ≡ first_free slots.now.items }
    ensures within { result ≤ length slots.now.items }
{
    let mut before = from;
    while before < slots.len() {
        let run = slots.run(before);
        let n = free_in(run);
        if n < run.len() {
            return before + n;
        }
        before += run.len();
    }
    before
}

/// The least number that is free, where this many elements are live. Those below `from` are taken.
#[tactic(auto, using(crate::proofs::Placing::all_taken, crate::proofs::Placing::free_few))]
pub(crate) fn least_free(slots: &Slots, live: usize, from: usize) -> ElementId
    requires counted { live ≡ length (shown slots.now.items) }
    requires taken { from ≤ first_free slots.now.items }
    requires few { length slots.now.items ≤ max_elements }
    ensures number { result ≡ first_free slots.now.items }
    ensures few { result ≤ live }
{
    if live == slots.len() {
        return ElementId(live as u32);
    }
    ElementId(first_free(slots, from) as u32)
}

/// The slot of a new element.
fn new_slot(alloc: Global, new: &NewElement) -> Result<Slot, Memory>
    ensures { IfOk result (λ s. s ≡ new_slot new.now.kind new.now.name new.now.into) }
{
    let mut parents = Containers::new(alloc);
    if let Some(into) = new.into {
        parents.push(into)?;
    }
    Ok(Slot {
        kind: new.kind,
        name: new.name,
        parents,
        children: 0,
    })
}

/// Lets the slot of a number, which is free, be written: one past the last is made first. On Memory
/// the slots are as before.
#[tactic(auto, using(crate::proofs::Placing::opened_before, crate::proofs::Placing::opened_last))]
pub(crate) fn open_slot(slots: &mut Slots, id: ElementId) -> Result<(), Memory>
    requires { id ≤ length slots.old.items }
    ensures ok { OnOk result (slots.new.items ≡ opened id slots.old.items) }
    ensures own { OnOk result (IsOwn slots.new id) }
    ensures err { OnErr result (slots.new.items ≡ slots.old.items) }
    ensures alone { slots.new.alone ≡ slots.old.alone }
{
    let n = id.number() as usize;
    if n < slots.len() {
        return slots.own_at(n);
    }
    slots.push(None)
}

/// Lets the slot of the container of a new element be written, where it has one. On Memory the slots
/// are as before.
fn own_container(slots: &mut Slots, into: Option<ElementId>) -> Result<(), Memory>
    requires { IfSome into (λ y. IsSome (slot_at slots.old.items y)) }
    ensures items { slots.new.items ≡ slots.old.items }
    ensures keeps { Keeps slots.old slots.new }
    ensures ok { OnOk result (IfSome into (IsOwn slots.new)) }
    ensures alone { slots.new.alone ≡ slots.old.alone }
{
    match into {
        Some(into) => slots.own_at(into.number() as usize),
        None => Ok(()),
    }
}

/// Puts the slot at a number that is free.
fn put(slots: &mut Slots, id: ElementId, slot: Slot)
    requires { IsOwn slots.old id }
    ensures { slots.new ≡ record slots.old { items = slice_set slots.old.items id (Some slot) } }
{
    *slots.edit(id.number() as usize) = Some(slot);
}

/// Counts a new element in the slot of its container, where it has one.
fn join(slots: &mut Slots, into: Option<ElementId>)
    requires into_live { IfSome into (λ y. IsSome (slot_at slots.old.items y)) }
    requires few { IfSome into (λ y. children_of (slot_at slots.old.items y) < 2 ^ 32 - 1) }
    requires own { IfSome into (IsOwn slots.old) }
    ensures { slots.new ≡ record slots.old { items = joined into slots.old.items } }
{
    if let Some(into) = into {
        add_child(slots, into);
    }
}

/// Puts a new element into the slot of a number, which is free and may be written. On Memory nothing
/// is changed.
pub(crate) fn place(
    slots: &mut Slots,
    names: &mut Names,
    id: ElementId,
    new: &NewElement,
) -> Result<(), Memory>
    requires free { id ≡ first_free slots.old.items }
    requires own { IsOwn slots.old id }
    requires unknown { lookup (bytes_eq new.now.name) names.old.items ≡ None }
    requires into_live { IfSome new.now.into (λ y. IsSome (slot_at slots.old.items y)) }
    requires few { IfSome new.now.into (λ y. children_of (slot_at slots.old.items y) < 2 ^ 32 - 1) }
    ensures slots { OnOk result (slots.new.items ≡ joined new.now.into (slice_set slots.old.items id (Some (new_slot new.now.kind new.now.name new.now.into)))) }
    ensures names { OnOk result (Renames new.now.name (Some id) names.old.items names.new.items) }
    ensures slots_same { OnErr result (slots.new.items ≡ slots.old.items) }
    ensures names_same { OnErr result (names.new.items ≡ names.old.items) }
    ensures slots_alone { slots.new.alone ≡ slots.old.alone }
    ensures names_alone { names.new.alone ≡ names.old.alone }
{
    let slot = new_slot(slots.allocator(), new)?;
    own_container(slots, new.into)?;
    names.insert(new.name, id)?;
    put(slots, id, slot);
    join(slots, new.into);
    Ok(())
}
