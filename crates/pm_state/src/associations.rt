//! Changes of associations: the kinds of their ends, before the table's own preconditions.

ghost use Rattle.std.specs.Prelude.{◌≡◌};
ghost use Rattle.pm_model.specs.Formed.{IsNamed};
ghost use Rattle.pm_state.specs.Changes.{Changes, Checks};
ghost use Rattle.pm_state.specs.Shown.{graph_of};

use crate::done::Done;
use crate::kinds::both_may_associate;
use crate::tables::Tables;
use pm_model::{Change, ChangeError, ElementId, Made, Refusal, Rights};

impl Tables {
    pub(crate) fn associate(
        &mut self,
        ua: ElementId,
        rights: Rights,
        at: ElementId,
    ) -> Result<Done, ChangeError>
        requires { IsNamed (graph_of self.old) (Change.Associate ua rights at) }
        ensures { Changes self.old self.new (Change.Associate ua rights at) result }
    {
        if !both_may_associate(self.diagram.elements(), ua, at) {
            return Err(ChangeError::Refused(Refusal::BadKinds));
        }
        match self.assoc.associate(ua, rights, at) {
            Ok(()) => Ok(Done::without_rows(Made::Nothing)),
            Err(error) => Err(pm_assoc::change_error(error)),
        }
    }

    // The first precondition of an association that isn't met.
    pub(crate) fn check_associate(
        &self,
        ua: ElementId,
        rights: Rights,
        at: ElementId,
    ) -> Result<(), ChangeError>
        requires { IsNamed (graph_of self.now) (Change.Associate ua rights at) }
        ensures { Checks self.now (Change.Associate ua rights at) result }
    {
        if !both_may_associate(self.diagram.elements(), ua, at) {
            return Err(ChangeError::Refused(Refusal::BadKinds));
        }
        match self.assoc.check_associate(ua, at) {
            Ok(()) => Ok(()),
            Err(error) => Err(pm_assoc::change_error(error)),
        }
    }

    pub(crate) fn dissociate(&mut self, ua: ElementId, at: ElementId) -> Result<Done, ChangeError>
        requires { IsNamed (graph_of self.old) (Change.Dissociate ua at) }
        ensures { Changes self.old self.new (Change.Dissociate ua at) result }
    {
        match self.assoc.dissociate(ua, at) {
            Ok(()) => Ok(Done::without_rows(Made::Nothing)),
            Err(error) => Err(pm_assoc::change_error(error)),
        }
    }

    pub(crate) fn check_dissociate(&self, ua: ElementId, at: ElementId) -> Result<(), ChangeError>
        requires { IsNamed (graph_of self.now) (Change.Dissociate ua at) }
        ensures { Checks self.now (Change.Dissociate ua at) result }
    {
        match self.assoc.check_dissociate(ua, at) {
            Ok(()) => Ok(()),
            Err(error) => Err(pm_assoc::change_error(error)),
        }
    }
}
