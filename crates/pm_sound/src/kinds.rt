//! Which kinds may be assigned, associated and prohibited, of elements found by name.

ghost use Rattle.std.specs.Prelude.{◌≡◌, IfSome};
ghost use Rattle.std.specs.List.{list_all};
ghost use Rattle.std.specs.Option.{is_some};
ghost use Rattle.pm_model.specs.Effect.{is_place_kind, is_ua_kind, is_user_kind, may_assign, may_associate};
ghost use Rattle.pm_order.specs.Ranked.{place};
ghost use Rattle.pm_policy.specs.Policy.{called};
ghost use Rattle.pm_policy.specs.Sound.{both, has_kind, AreOnceCalled};
ghost use Rattle.pm_sound.specs.Tests.{are_places, is_subject};

use crate::standing::Standing;
use pm_model::{Kind, Name, Subject};
use pm_policy::{DocAssignment, DocAssociation};

fn may_assign(x: Kind, y: Kind) -> bool
    ensures { result ≡ may_assign x y }
{
    match x {
        Kind::User => matches!(y, Kind::Ua),
        Kind::Ua => matches!(y, Kind::Ua | Kind::Pc),
        Kind::Object | Kind::Oa => matches!(y, Kind::Oa | Kind::Pc),
        Kind::Pc => false,
    }
}

fn may_associate(ua: Kind, at: Kind) -> bool
    ensures { result ≡ may_associate ua at }
{
    match ua {
        Kind::Ua => matches!(at, Kind::Ua | Kind::Oa | Kind::Object),
        _ => false,
    }
}

/// The places of both ends, where these stand and are of kinds that may be assigned. The first end is looked for at a likely
/// place first.
pub(crate) fn ends(
    standing: &Standing,
    pair: &DocAssignment,
    likely: usize,
) -> Option<(usize, usize)>
    requires { AreOnceCalled standing.now }
    ensures fit { is_some result ≡ both may_assign (called standing.now pair.now.from) (called standing.now pair.now.to) }
    ensures places { IfSome result (λ ends. (ends.0 ≡ place standing.now pair.now.from) × (ends.1 ≡ place standing.now pair.now.to)) }
{
    match (
        standing.place_near(&pair.from, likely),
        standing.place(&pair.to),
    ) {
        (Some((from, x)), Some((to, y))) if may_assign(x, y) => Some((from, to)),
        _ => None,
    }
}

/// Whether both ends stand, and are of kinds that may be associated.
pub(crate) fn may_join(standing: &Standing, association: &DocAssociation) -> bool
    ensures { result ≡ both may_associate (called standing.now association.now.ua) (called standing.now association.now.at) }
{
    match (
        standing.find(&association.ua),
        standing.find(&association.at),
    ) {
        (Some(ua), Some(at)) => may_associate(ua.kind, at.kind),
        _ => false,
    }
}

fn is_place(standing: &Standing, name: &Name) -> bool
    ensures { result ≡ has_kind is_place_kind (called standing.now name.now) }
{
    match standing.find(name) {
        Some(element) => matches!(element.kind, Kind::Ua | Kind::Oa | Kind::Object),
        None => false,
    }
}

/// Whether each of the names is that of an element that may stand in a set of a prohibition.
pub(crate) fn are_places(standing: &Standing, names: &[Name]) -> bool
    ensures { result ≡ are_places standing.now names.now }
{
    names.iter().all(|name| is_place(standing, name))
}

fn is_user(standing: &Standing, name: &Name) -> bool
    ensures { result ≡ has_kind is_user_kind (called standing.now name.now) }
{
    match standing.find(name) {
        Some(element) => matches!(element.kind, Kind::User),
        None => false,
    }
}

fn is_attribute(standing: &Standing, name: &Name) -> bool
    ensures { result ≡ has_kind is_ua_kind (called standing.now name.now) }
{
    match standing.find(name) {
        Some(element) => matches!(element.kind, Kind::Ua),
        None => false,
    }
}

/// Whether a prohibition may have this subject: a user or a user attribute that stands.
pub(crate) fn is_subject(standing: &Standing, subject: &Subject<Name, u32>) -> bool
    ensures { result ≡ is_subject standing.now subject.now }
{
    match subject {
        Subject::User(name) => is_user(standing, name),
        Subject::Ua(name) => is_attribute(standing, name),
        Subject::Process(_) => false,
    }
}
