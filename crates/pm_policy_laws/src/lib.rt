//! Laws of the policy of a graph, as a document has it: that it is sound, and that it is the graph's.
#![tactic(auto)]

ghost use Rattle.std.specs.Prelude.{List};
ghost use Rattle.pm_model.specs.History.{IsLegal, replay};
ghost use Rattle.pm_model.specs.State.{Graph};
ghost use Rattle.pm_model.specs.declared.requests.Entry.{Entry};
ghost use Rattle.pm_policy.specs.Drawn.{policy_in_order};
ghost use Rattle.pm_policy.specs.PolicyOf.{HasPolicy};
ghost use Rattle.pm_policy.specs.Sound.{IsSound};

/// The policy of the graph that a legal history leads to is sound.
pub fn policy_is_sound()
    ensures { (H : List Entry) → IsLegal H → IsSound (policy_in_order (replay H).graph) }
{}

/// A graph has its policy.
pub fn policy_stands()
    ensures { (G : Graph) → HasPolicy (policy_in_order G) G }
{}
