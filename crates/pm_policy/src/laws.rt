//! Laws of documents: that a sound one can be made, and that the elements and assignments of a state are sound.

ghost use Rattle.std.specs.Prelude.{◌≡◌, ◌↔◌, ℕ, List, map, Contains, length, [], false};
ghost use Rattle.pm_model.specs.Formed.{IsWellFormed};
ghost use Rattle.pm_model.specs.History.{IsLegal, replay};
ghost use Rattle.pm_model.specs.State.{Graph};
ghost use Rattle.pm_model.specs.declared.requests.Entry.{Entry};
ghost use Rattle.pm_policy.specs.Order.{ordered};
ghost use Rattle.pm_policy.specs.Requests.{requests};
ghost use Rattle.pm_policy.specs.PolicyOf.{HasPolicy, policy_elements, policy_assignments};
ghost use Rattle.pm_policy.specs.Sound.{IsSound, AreSound, AreOnceCalled, IsAcyclic};
ghost use Rattle.pm_policy.specs.Waiting.{waits, IsSettled, AreKnown};
ghost use Rattle.pm_policy.specs.declared.policy.DocElement.{DocElement};
ghost use Rattle.pm_policy.specs.declared.policy.DocAssignment.{DocAssignment};
ghost use Rattle.pm_policy.specs.declared.policy.Policy.{Policy};

/// The requests of a sound document are accepted one after another from the opening state, and the
/// state after them has the document's policy.
#[tactic(auto, using(crate::proofs::Law::document_accepted))]
pub fn document_accepted()
    ensures { (D : Policy) → IsSound D → (H : List Entry) → map (λ (e : Entry). e.request) H ≡ requests D → IsLegal H × HasPolicy D (replay H).graph }
{}

/// The elements and assignments of the policy of a well formed graph are sound.
pub fn drawn_sound()
    ensures { (G : Graph) → IsWellFormed G → AreSound (policy_elements G) (policy_assignments G) }
{}

/// Assignments of known elements have no cycle exactly where each element has its turn, from nothing on.
pub fn acyclic_exactly()
    ensures { (pairs : List DocAssignment) (es : List DocElement) → AreOnceCalled es → AreKnown pairs es → IsAcyclic pairs ↔ ((e : DocElement) → Contains es e → Contains (ordered pairs (length es) [] es) e) }
{}

/// Once a round lets none go, assignments of known elements have no cycle exactly where none waits.
#[tactic(auto, using(crate::proofs::Waiting::acyclic_by_rounds))]
pub fn acyclic_by_rounds()
    ensures { (pairs : List DocAssignment) (k : ℕ) (es : List DocElement) → AreKnown pairs es → IsSettled pairs k es → IsAcyclic pairs ↔ ((e : DocElement) → Contains es e → waits pairs k e.name ≡ false) }
{}
