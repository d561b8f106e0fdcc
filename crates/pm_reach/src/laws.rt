//! What the changes of the rows mean for the containment that they tell: laws, with no program.

ghost use Rattle.std.specs.Prelude.{◌≡◌, ℕ, Bool, true, false, ◌==◌, ◌∷◌, List, Option};
ghost use Rattle.pm_model.specs.Containment.{contained};
ghost use Rattle.pm_reach.specs.Rows.{has};
ghost use Rattle.pm_reach.specs.Changes.{TellContainment, Adds, Assigns, Creates, Removes};

/// Where rows told the containment of some assignments, they tell that of these and a new one once they
/// have followed it.
#[tactic(auto, using(crate::proofs::Openings::assigned_more))]
pub fn assigned_rows_tell()
    ensures { (assigned : List (ℕ × ℕ)) (old new : List (List (Option (List ℕ)))) (x y : ℕ) → has old y ≡ true → TellContainment assigned old → Assigns x y old new → TellContainment ((x, y) ∷ assigned) new }
{}

/// So they do once they have followed that an element was made, which is assigned to nothing.
#[tactic(auto, using(crate::proofs::Openings::added_more))]
pub fn added_rows_tell()
    ensures { (assigned : List (ℕ × ℕ)) (old new : List (List (Option (List ℕ)))) (x : ℕ) → has old x ≡ false → ((q : ℕ) → contained assigned x q ≡ (x == q)) → TellContainment assigned old → Adds x old new → TellContainment assigned new }
{}

/// So they do once they have followed that an element was made and assigned to another.
#[tactic(auto, using(crate::proofs::Openings::created_more))]
pub fn created_rows_tell()
    ensures { (assigned : List (ℕ × ℕ)) (old new : List (List (Option (List ℕ)))) (x y : ℕ) → has old x ≡ false → has old y ≡ true → ((q : ℕ) → contained assigned x q ≡ (x == q)) → ((p : ℕ) → has old p ≡ true → contained assigned p x ≡ false) → TellContainment assigned old → Creates x y old new → TellContainment ((x, y) ∷ assigned) new }
{}

/// So they do once they have followed that an element was deleted.
#[tactic(auto, using(crate::proofs::Openings::removed_less))]
pub fn removed_rows_tell()
    ensures { (assigned : List (ℕ × ℕ)) (old new : List (List (Option (List ℕ)))) (x : ℕ) → TellContainment assigned old → Removes x old new → TellContainment assigned new }
{}
