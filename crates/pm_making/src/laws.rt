//! A law of the lines that make a document.

ghost use Rattle.std.specs.Prelude.{ℕ, List};
ghost use Rattle.pm_making.specs.Accepted.{Make};
ghost use Rattle.pm_model.specs.Formed.{Each};
ghost use Rattle.pm_policy.specs.Requests.{requests};
ghost use Rattle.pm_policy.specs.Sound.{IsSound};
ghost use Rattle.pm_policy.specs.declared.policy.Policy.{Policy};
ghost use Rattle.pm_print.specs.Askable.{IsAskable};

/// The lines of a sound document, each of which a line can ask for, are accepted one after another from the opening state, and
/// the state after them has the document's policy.
pub fn lines_make()
    ensures { (D : Policy) → IsSound D → Each IsAskable (requests D) → (lines : List (List ℕ)) × Make D lines }
{}
