//! What a new prohibition would be refused for. Nothing is changed here.

ghost use Rattle.std.specs.Prelude.{◌≡◌, ◌≢◌, None, OnOk, IfErr};
ghost use Rattle.pm_model.specs.Results.{first_of};
ghost use Rattle.pm_model.specs.Effect.{IsCause};
ghost use Rattle.pm_model.specs.Prohibitions.{prohibit_checks};
ghost use Rattle.pm_deny.specs.Told.{told};

use crate::errors::DenyError;
use crate::items::has_empty_range;
use crate::table::Deny;
use pm_model::{Bars, Prohibition};

const MAX_PROHIBITIONS: usize = 4096;

impl Deny {
    /// Whether the prohibition could be made: `NameTaken` where one has its name, `EmptyRange` where
    /// neither of its sets has an element, `Full` where there are 4,096, in this order.
    pub fn check_prohibit(&self, item: &Prohibition) -> Result<(), DenyError>
        ensures fits { OnOk result (first_of (prohibit_checks self.now.items item.now) ≡ None) }
        ensures refused { IfErr result (λ e. IsCause (first_of (prohibit_checks self.now.items item.now)) (told e)) }
        ensures no_memory { IfErr result (λ e. e ≢ DenyError.Memory) }
    {
        if self.has_name(item.name) {
            return Err(DenyError::NameTaken);
        }
        if has_empty_range(item) {
            return Err(DenyError::EmptyRange);
        }
        if self.len() >= MAX_PROHIBITIONS {
            return Err(DenyError::Full);
        }
        Ok(())
    }
}
