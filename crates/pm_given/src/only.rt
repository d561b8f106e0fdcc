//! What has one container alone.

ghost use Rattle.std.specs.Prelude.{◌≡◌, ◌∷◌, [], IsTrue, IfSome};
ghost use Rattle.std.specs.List.{list_any};
ghost use Rattle.pm_model.specs.Containment.{containers};
ghost use Rattle.pm_model.specs.Decision.{is_grantee};

use pm_model::{ElementId, Grants, Parents};

/// What the element is assigned to, where that is one element.
#[tactic(auto, using(crate::proofs::Sources::one))]
pub(crate) fn only_container<P: Parents>(parents: &P, x: ElementId) -> Option<ElementId>
    requires { IsTrue (P.live parents.now x) }
    ensures only { IfSome result (λ p. containers (P.assigned parents.now) x ≡ p ∷ []) }
    ensures live { IfSome result (λ p. IsTrue (P.live parents.now p)) }
{
    if parents.count(x) != 1 {
        return None;
    }
    Some(parents.parent(x, 0))
}

/// Whether it is a user attribute that has associations.
pub(crate) fn is_holder<G: Grants>(grants: &G, x: ElementId) -> bool
    ensures { result ≡ list_any (is_grantee x) (G.grantees grants.now) }
{
    let n = x.number();
    (grants.holders(n / 64) >> (n % 64)) & 1 == 1
}
