//! What a change of the table would be refused for. Nothing is changed here.

ghost use Rattle.std.specs.Prelude.{◌≡◌, ◌≢◌, None, OnOk, IfErr};
ghost use Rattle.pm_model.specs.Results.{first_of};
ghost use Rattle.pm_model.specs.Decision.{associations_of};
ghost use Rattle.pm_model.specs.Effect.{associate_checks, dissociate_checks, IsCause};
ghost use Rattle.pm_assoc.specs.Told.{told};

use crate::errors::AssocError;
use crate::table::Assoc;
use pm_model::ElementId;

const MAX_ASSOCIATIONS: usize = 65536;

impl Assoc {
    /// Whether the user attribute could be associated with the element. `Already` where it has an
    /// association on it, whatever the rights; else `Full` where there are 65,536 associations.
    pub fn check_associate(&self, ua: ElementId, at: ElementId) -> Result<(), AssocError>
        ensures fits { OnOk result (first_of (associate_checks (associations_of self.now.grantees) ua at) ≡ None) }
        ensures refused { IfErr result (λ e. IsCause (first_of (associate_checks (associations_of self.now.grantees) ua at)) (told e)) }
        ensures no_memory { IfErr result (λ e. e ≢ AssocError.Memory) }
    {
        if self.has(ua, at) {
            return Err(AssocError::Already);
        }
        if self.len() >= MAX_ASSOCIATIONS {
            return Err(AssocError::Full);
        }
        Ok(())
    }

    /// Whether the user attribute has an association on the element to be taken away. `Absent` where
    /// it has none.
    pub fn check_dissociate(&self, ua: ElementId, at: ElementId) -> Result<(), AssocError>
        ensures fits { OnOk result (first_of (dissociate_checks (associations_of self.now.grantees) ua at) ≡ None) }
        ensures refused { IfErr result (λ e. IsCause (first_of (dissociate_checks (associations_of self.now.grantees) ua at)) (told e)) }
        ensures no_memory { IfErr result (λ e. e ≢ AssocError.Memory) }
    {
        if !self.has(ua, at) {
            return Err(AssocError::Absent);
        }
        Ok(())
    }
}
