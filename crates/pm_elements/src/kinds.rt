//! Which element may be assigned to which, by their kinds.

ghost use Rattle.std.specs.Prelude.{◌≡◌, IfSome};
ghost use Rattle.pm_model.specs.State.{element_at};
ghost use Rattle.pm_model.specs.Effect.{may_assign, may_create, both};
ghost use Rattle.pm_model.specs.Formed.{IsLive};
ghost use Rattle.pm_elements.specs.Slots.{shown};

use crate::slots::{Slots, taken_slot};
use pm_model::{ElementId, Kind};

/// Whether an element of one kind may be assigned to one of the other.
fn may_assign(x: Kind, y: Kind) -> bool
    ensures { result ≡ may_assign x y }
{
    match (x, y) {
        (Kind::User, Kind::Ua) => true,
        (Kind::Ua, Kind::Ua | Kind::Pc) => true,
        (Kind::Object, Kind::Oa | Kind::Pc) => true,
        (Kind::Oa, Kind::Oa | Kind::Pc) => true,
        _ => false,
    }
}

/// Whether the kinds of two live elements allow the assignment.
#[tactic(auto, using(crate::proofs::Shown::both_shown))]
pub(crate) fn both_may_assign(slots: &Slots, x: ElementId, y: ElementId) -> bool
    requires x_live { IsLive (shown slots.now.items) x }
    requires y_live { IsLive (shown slots.now.items) y }
    ensures { result ≡ both may_assign (element_at (shown slots.now.items) x) (element_at (shown slots.now.items) y) }
{
    may_assign(taken_slot(slots, x).kind, taken_slot(slots, y).kind)
}

/// Whether an element of this kind may be made in the container, where there is one.
#[tactic(auto, using(crate::proofs::Shown::create_shown))]
pub(crate) fn may_create(slots: &Slots, kind: Kind, into: Option<ElementId>) -> bool
    requires { IfSome into (IsLive (shown slots.now.items)) }
    ensures { result ≡ may_create (shown slots.now.items) kind into }
{
    match into {
        Some(into) => may_assign(kind, taken_slot(slots, into).kind),
        None => true,
    }
}
