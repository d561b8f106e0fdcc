//! What the lists of reviews keep.

ghost use Rattle.std.specs.Prelude.{ℕ, is_some};
ghost use Rattle.pm_model.specs.Formed.{IsWellFormed};
ghost use Rattle.pm_model.specs.Reviews.{list_of};
ghost use Rattle.pm_model.specs.State.{Graph, element_at};
ghost use Rattle.pm_model.specs.declared.reviews.ReviewOf.{ReviewOf};
ghost use Rattle.pm_review.specs.Rising.{PairsRiseFrom, AllNamed};

/// The list of a review of a well formed graph is by rising number, and of live elements: so two such lists may be
/// compared.
#[tactic(auto, using(crate::proofs::Lists::list_rises, crate::proofs::Lists::list_live))]
pub fn lists_rise()
    ensures rising { (G : Graph) (of : ReviewOf ℕ) → IsWellFormed G → PairsRiseFrom 0 (list_of G of) }
    ensures live { (G : Graph) (of : ReviewOf ℕ) → IsWellFormed G → AllNamed (λ n. is_some (element_at G.elements n)) (list_of G of) }
{}
