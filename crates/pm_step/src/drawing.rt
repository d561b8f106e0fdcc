//! The policy of the machine with one caller.

use crate::solo::Solo;
use pm_drawing::policy_of;
use pm_drawn::Drawn;
use pm_model::Memory;
use pm_policy::Policy;

impl Drawn for Solo {
    fn policy(&self) -> Result<Policy, Memory> {
        policy_of(self.state().graph())
    }
}
