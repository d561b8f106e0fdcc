//! That the test of containment says what paths say.

ghost use Rattle.std.specs.Prelude.{ℕ, List, IsTrue, ◌↔◌};
ghost use Rattle.pm_model.specs.Containment.{contained, IsContained};

/// The test of containment says yes exactly where a path of assignments leads from x to y.
#[tactic(auto, using(crate::proofs::ContainmentLaws::containment_is_path))]
pub fn containment_is_path()
    ensures { (assigned : List (ℕ × ℕ)) (x y : ℕ) → IsTrue (contained assigned x y) ↔ IsContained assigned x y }
{}
