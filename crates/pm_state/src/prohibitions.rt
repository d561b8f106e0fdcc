//! Changes of prohibitions, and of the names of rights.

ghost use Rattle.std.specs.Prelude.{◌≡◌, ◌<◌, length};
ghost use Rattle.pm_state.specs.Changes.{Changes, Checks};

use crate::done::Done;
use crate::kinds::may_prohibit;
use crate::tables::Tables;
use pm_model::{Change, ChangeError, Made, Memory, Name, Prohibition, Refusal};

impl Tables {
    pub(crate) fn prohibit(&mut self, item: &Prohibition) -> Result<Done, ChangeError>
        ensures { Changes self.old self.new (Change.Prohibit item.now) result }
    {
        if !may_prohibit(self.diagram.elements(), item) {
            return Err(ChangeError::Refused(Refusal::BadKinds));
        }
        let item = match item.copy() {
            Ok(item) => item,
            Err(Memory) => return Err(ChangeError::Memory),
        };
        match self.deny.prohibit(item) {
            Ok(()) => Ok(Done::without_rows(Made::Nothing)),
            Err(error) => Err(pm_deny::change_error(error)),
        }
    }

    pub(crate) fn check_prohibit(&self, item: &Prohibition) -> Result<(), ChangeError>
        ensures { Checks self.now (Change.Prohibit item.now) result }
    {
        if !may_prohibit(self.diagram.elements(), item) {
            return Err(ChangeError::Refused(Refusal::BadKinds));
        }
        match self.deny.check_prohibit(item) {
            Ok(()) => Ok(()),
            Err(error) => Err(pm_deny::change_error(error)),
        }
    }

    pub(crate) fn lift(&mut self, index: u32) -> Result<Done, ChangeError>
        requires { index < length self.old.deny.items }
        ensures { Changes self.old self.new (Change.Lift index) result }
    {
        match self.deny.lift_at(index) {
            Ok(_lifted) => Ok(Done::without_rows(Made::Nothing)),
            Err(Memory) => Err(ChangeError::Memory),
        }
    }

    pub(crate) fn define_right(&mut self, name: Name) -> Result<Done, ChangeError>
        ensures { Changes self.old self.new (Change.DefineRight name) result }
    {
        match self.rights.define(name) {
            Ok(()) => Ok(Done::without_rows(Made::Nothing)),
            Err(error) => Err(pm_rights::change_error(error)),
        }
    }

    pub(crate) fn check_define_right(&self, name: Name) -> Result<(), ChangeError>
        ensures { Checks self.now (Change.DefineRight name) result }
    {
        match self.rights.check_define(name) {
            Ok(()) => Ok(()),
            Err(error) => Err(pm_rights::change_error(error)),
        }
    }
}
