//! The numbers of the live elements, or of the users among them, by a walk along the slots.

ghost use Rattle.std.specs.Prelude.{◌≡◌, ◌≤◌, ◌+◌, ◌++◌, length, IfOk, OnOk};
ghost use Rattle.pm_model.specs.Effect.{max_elements};
ghost use Rattle.pm_elements.specs.Numbers.{is_listed, numbers_from};

use crate::slots::{Slot, Slots};
use pm_model::{ElementId, Kind, Memory, PlaceList};

/// Which elements are listed.
#[derive(Clone, Copy)]
pub(crate) enum Which {
    All,
    Users,
}

/// Whether the slot is taken, by an element that is listed.
fn is_listed(which: Which, slot: &Option<Slot>) -> bool
    ensures { result ≡ is_listed which slot.now }
{
    match (which, slot) {
        (_, None) => false,
        (Which::All, Some(_)) => true,
        (Which::Users, Some(slot)) => matches!(slot.kind, Kind::User),
    }
}

/// Puts the numbers of the elements of these slots that are listed at the end of the list. The first slot has this number.
#[tactic(auto, using(crate::proofs::Numbers::slot_listed, crate::proofs::Numbers::slot_passed))]
fn push_listed(
    list: &mut PlaceList,
    which: Which,
    first: usize,
    slots: &[Option<Slot>],
) -> Result<(), Memory>
    requires { first + length slots.now ≤ max_elements }
    ensures { OnOk result (list.new ≡ list.old ++ numbers_from which first slots.now) }
{
    for n in 0..slots.len() {
        if is_listed(which, &slots[n]) {
            list.push(ElementId((first + n) as u32))?;
        }
    }
    Ok(())
}

/// The numbers of those that are listed, by rising number, in a list that begins with this room.
pub(crate) fn list_numbers(slots: &Slots, which: Which, room: usize) -> Result<PlaceList, Memory>
    requires { length slots.now.items ≤ max_elements }
    ensures { IfOk result (λ list. list ≡ numbers_from which 0 slots.now.items) }
{
    let mut list = PlaceList::with_room(slots.allocator(), room)?;
    let mut from = 0;
    while from < slots.len() {
        let run = slots.run(from);
        push_listed(&mut list, which, from, run)?;
        from += run.len();
    }
    Ok(list)
}
