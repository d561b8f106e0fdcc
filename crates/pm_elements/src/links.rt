//! An assignment is written in the slots of both ends.

ghost use Rattle.std.specs.Prelude.{◌≡◌, ◌==◌, ◌<◌, ◌^◌, ◌-◌, true, IsSome, IsOk, OnOk, OnErr};
ghost use Rattle.pm_pages.specs.Paged.{IsOwn};
ghost use Rattle.pm_elements.specs.Slots.{slot_at, children_of, edited, with_parent, without_parent, with_child, without_child, linked, unlinked};

use crate::slots::{Slots, own_both};
use pm_model::{ElementId, Memory};

/// Notes in the slot of x that x is assigned to y. On Memory the slots are as before.
#[tactic(auto, using(crate::proofs::Edits::edited_taken))]
fn add_parent(slots: &mut Slots, x: ElementId, y: ElementId) -> Result<(), Memory>
    requires live { IsSome (slot_at slots.old.items x) }
    requires own { IsOwn slots.old x }
    ensures ok { OnOk result (slots.new ≡ record slots.old { items = edited (with_parent y) x slots.old.items }) }
    ensures err { OnErr result (slots.new.items ≡ slots.old.items) }
    ensures alone { slots.new.alone ≡ slots.old.alone }
{
    let slot = slots.edit(x.number() as usize).as_mut().unwrap();
    slot.parents.push(y)
}

/// Notes in the slot of x that x is no more assigned to y.
#[tactic(auto, using(crate::proofs::Edits::edited_taken))]
fn drop_parent(slots: &mut Slots, x: ElementId, y: ElementId)
    requires live { IsSome (slot_at slots.old.items x) }
    requires own { IsOwn slots.old x }
    ensures { slots.new ≡ record slots.old { items = edited (without_parent y) x slots.old.items } }
{
    let slot = slots.edit(x.number() as usize).as_mut().unwrap();
    slot.parents.remove(y);
}

/// Counts one more element that is assigned to y.
#[tactic(auto, using(crate::proofs::Edits::edited_taken))]
pub(crate) fn add_child(slots: &mut Slots, y: ElementId)
    requires live { IsSome (slot_at slots.old.items y) }
    requires few { children_of (slot_at slots.old.items y) < 2 ^ 32 - 1 }
    requires own { IsOwn slots.old y }
    ensures { slots.new ≡ record slots.old { items = edited with_child y slots.old.items } }
{
    let slot = slots.edit(y.number() as usize).as_mut().unwrap();
    slot.children += 1;
}

/// Counts one element less that is assigned to y.
#[tactic(auto, using(crate::proofs::Edits::edited_taken))]
pub(crate) fn drop_child(slots: &mut Slots, y: ElementId)
    requires live { IsSome (slot_at slots.old.items y) }
    requires own { IsOwn slots.old y }
    ensures { slots.new ≡ record slots.old { items = edited without_child y slots.old.items } }
{
    let slot = slots.edit(y.number() as usize).as_mut().unwrap();
    slot.children = slot.children.saturating_sub(1);
}

/// Assigns x to y. On Memory the slots are as before.
pub(crate) fn link(slots: &mut Slots, x: ElementId, y: ElementId) -> Result<(), Memory>
    requires x_live { IsSome (slot_at slots.old.items x) }
    requires y_live { IsSome (slot_at slots.old.items y) }
    requires few { children_of (slot_at slots.old.items y) < 2 ^ 32 - 1 }
    ensures ok { OnOk result (slots.new.items ≡ linked x y slots.old.items) }
    ensures err { OnErr result (slots.new.items ≡ slots.old.items) }
    ensures alone { slots.new.alone ≡ slots.old.alone }
{
    own_both(slots, x, y)?;
    add_parent(slots, x, y)?;
    add_child(slots, y);
    Ok(())
}

/// Takes the assignment of x to y away. On Memory the slots are as before.
pub(crate) fn unlink(slots: &mut Slots, x: ElementId, y: ElementId) -> Result<(), Memory>
    requires x_live { IsSome (slot_at slots.old.items x) }
    requires y_live { IsSome (slot_at slots.old.items y) }
    ensures ok { OnOk result (slots.new.items ≡ unlinked x y slots.old.items) }
    ensures err { OnErr result (slots.new.items ≡ slots.old.items) }
    ensures sure { slots.old.alone ≡ true → IsOk result }
    ensures alone { slots.new.alone ≡ slots.old.alone }
{
    own_both(slots, x, y)?;
    drop_parent(slots, x, y);
    drop_child(slots, y);
    Ok(())
}
