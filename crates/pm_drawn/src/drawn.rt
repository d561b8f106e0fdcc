//! The policy of a machine, by names.

ghost use Rattle.std.specs.Prelude.{◌≡◌, IfOk};
ghost use Rattle.pm_policy.specs.Drawn.{policy_in_order};

use pm_machine::Answerer;
use pm_model::Memory;
use pm_policy::Policy;

/// A machine with one caller that tells its policy.
pub trait Drawn: Answerer {
    /// The policy of its graph, each list in the order in which a document has it: no operations, obligations, sessions,
    /// processes, prohibitions on processes or kept reviews, and nothing of the opening state.
    fn policy(&self) -> Result<Policy, Memory>
        ensures { IfOk result (λ policy. policy ≡ policy_in_order (Self.machine self.now).graph) };
}
