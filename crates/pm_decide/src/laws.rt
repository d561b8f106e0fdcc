//! What a decision says, in the standard's words.

ghost use Rattle.std.specs.Prelude.{◌≡◌, ◌↔◌, ℕ, Bool, List, Option};
ghost use Rattle.pm_model.specs.declared.rights.Association.{Association};
ghost use Rattle.pm_model.specs.declared.prohibitions.Prohibition.{Prohibition};
ghost use Rattle.pm_decide.specs.declared.verdict.Verdict.{Verdict};
ghost use Rattle.pm_decide.specs.Meaning.{Says};
ghost use Rattle.pm_decide.specs.Verdict.{decision};

/// A decision is the verdict that says what holds: granted exactly where the user has the privilege and
/// no prohibition both applies and covers; a class exactly where it is the first of the classes that
/// contain the element in which no association gives the right; a prohibition exactly where the user has
/// the privilege and it is the first in order of creation that applies and covers.
#[tactic(auto, using(crate::proofs::Meaning::decision_said))]
pub fn decision_said()
    ensures { (below : ℕ → ℕ → Bool) (associations : List Association) (prohibitions : List Prohibition) (classes : List ℕ) (u : ℕ) (q : Option ℕ) (r e : ℕ) (v : Verdict) → (decision below associations prohibitions classes u q r e ≡ v) ↔ Says below associations prohibitions classes u q r e v }
{}
