//! Whether elements are of the kinds that a change asks for.

ghost use Rattle.std.specs.Prelude.{◌≡◌};
ghost use Rattle.std.specs.List.{list_all};
ghost use Rattle.pm_model.specs.State.{element_at};
ghost use Rattle.pm_model.specs.Effect.{both, has_kind, has_subject_kind, is_actor_kind, is_place, is_place_kind, is_ua_kind, is_user_kind, may_associate, may_keep, may_prohibit, may_watch};
ghost use Rattle.pm_model.specs.Formed.{IsLive};

use pm_elements::Elements;
use pm_model::{ElementId, Kind, PlaceList, Prohibition, ReviewOf, Subject};

/// Whether the element is a user.
pub(crate) fn is_user(elements: &Elements, id: ElementId) -> bool
    ensures { result ≡ has_kind is_user_kind (element_at elements.now.elements id) }
{
    elements.live(id) && matches!(elements.kind(id), Kind::User)
}

fn is_user_attribute(elements: &Elements, id: ElementId) -> bool
    ensures { result ≡ has_kind is_ua_kind (element_at elements.now.elements id) }
{
    elements.live(id) && matches!(elements.kind(id), Kind::Ua)
}

fn is_actor_kind(kind: Kind) -> bool
    ensures { result ≡ is_actor_kind kind }
{
    match kind {
        Kind::User | Kind::Ua => true,
        Kind::Oa | Kind::Object | Kind::Pc => false,
    }
}

/// Whether the element is a user or a user attribute.
fn is_actor(elements: &Elements, id: ElementId) -> bool
    ensures { result ≡ has_kind is_actor_kind (element_at elements.now.elements id) }
{
    elements.live(id) && is_actor_kind(elements.kind(id))
}

pub(crate) fn may_watch(elements: &Elements, user: Option<ElementId>) -> bool
    ensures { result ≡ may_watch elements.now.elements user }
{
    match user {
        None => true,
        Some(id) => is_actor(elements, id),
    }
}

pub(crate) fn may_keep(elements: &Elements, of: &ReviewOf<ElementId>) -> bool
    ensures { result ≡ may_keep elements.now.elements of.now }
{
    match of {
        ReviewOf::Caps(user) => is_user(elements, *user),
        ReviewOf::Entries(_) => true,
    }
}

fn may_associate(ua: Kind, at: Kind) -> bool
    ensures { result ≡ may_associate ua at }
{
    match (ua, at) {
        (Kind::Ua, Kind::Ua | Kind::Oa | Kind::Object) => true,
        _ => false,
    }
}

/// Whether the kinds of two live elements allow an association.
pub(crate) fn both_may_associate(elements: &Elements, ua: ElementId, at: ElementId) -> bool
    requires ua_live { IsLive elements.now.elements ua }
    requires at_live { IsLive elements.now.elements at }
    ensures { result ≡ both may_associate (element_at elements.now.elements ua) (element_at elements.now.elements at) }
{
    may_associate(elements.kind(ua), elements.kind(at))
}

fn is_place_kind(kind: Kind) -> bool
    ensures { result ≡ is_place_kind kind }
{
    match kind {
        Kind::Ua | Kind::Oa | Kind::Object => true,
        Kind::User | Kind::Pc => false,
    }
}

/// Whether the element is of a kind that may stand in a set of a prohibition.
fn is_place(elements: &Elements, id: ElementId) -> bool
    ensures { result ≡ is_place elements.now.elements id }
{
    elements.live(id) && is_place_kind(elements.kind(id))
}

fn are_places(elements: &Elements, places: &PlaceList) -> bool
    ensures { result ≡ list_all (is_place elements.now.elements) places.now }
{
    places.as_slice().iter().all(|id| is_place(elements, *id))
}

fn has_subject_kind(elements: &Elements, subject: Subject<ElementId, u32>) -> bool
    ensures { result ≡ has_subject_kind elements.now.elements subject }
{
    match subject {
        Subject::User(id) => is_user(elements, id),
        Subject::Ua(id) => is_user_attribute(elements, id),
        Subject::Process(_) => true,
    }
}

pub(crate) fn may_prohibit(elements: &Elements, item: &Prohibition) -> bool
    ensures { result ≡ may_prohibit elements.now.elements item.now }
{
    has_subject_kind(elements, item.subject)
        && are_places(elements, &item.inc)
        && are_places(elements, &item.exc)
}
