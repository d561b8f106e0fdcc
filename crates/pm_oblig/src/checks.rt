//! What a new obligation would be refused for. Nothing is changed here.

ghost use Rattle.std.specs.Prelude.{◌≡◌, ◌≢◌, None, OnOk, IfErr};
ghost use Rattle.pm_model.specs.Results.{first_of};
ghost use Rattle.pm_model.specs.Effect.{IsCause};
ghost use Rattle.pm_model.specs.Obligations.{oblige_checks};
ghost use Rattle.pm_oblig.specs.Told.{told};

use crate::errors::ObligError;
use crate::table::Obligations;
use pm_model::Obligation;

const MAX_OBLIGATIONS: usize = 1024;

impl Obligations {
    /// Whether the obligation could be made: `NameTaken` where one has its name, `Full` where there are 1,024, in this
    /// order.
    pub fn check_oblige(&self, item: &Obligation) -> Result<(), ObligError>
        ensures fits { OnOk result (first_of (oblige_checks self.now.items item.now) ≡ None) }
        ensures refused { IfErr result (λ e. IsCause (first_of (oblige_checks self.now.items item.now)) (told e)) }
        ensures no_memory { IfErr result (λ e. e ≢ ObligError.Memory) }
    {
        if self.has_name(item.name) {
            return Err(ObligError::NameTaken);
        }
        if self.len() >= MAX_OBLIGATIONS {
            return Err(ObligError::Full);
        }
        Ok(())
    }
}
