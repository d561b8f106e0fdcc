//! Changes of obligations.

ghost use Rattle.std.specs.Prelude.{◌≡◌, ◌<◌, length};
ghost use Rattle.pm_state.specs.Changes.{Changes, Checks};

use crate::done::Done;
use crate::kinds::may_watch;
use crate::tables::Tables;
use pm_model::{Change, ChangeError, Made, Memory, Obligation, Refusal};

impl Tables {
    pub(crate) fn oblige(&mut self, item: &Obligation) -> Result<Done, ChangeError>
        ensures { Changes self.old self.new (Change.Oblige item.now) result }
    {
        if !may_watch(self.diagram.elements(), item.pattern.user) {
            return Err(ChangeError::Refused(Refusal::BadKinds));
        }
        let item = match item.copy() {
            Ok(item) => item,
            Err(Memory) => return Err(ChangeError::Memory),
        };
        match self.oblig.oblige(item) {
            Ok(()) => Ok(Done::without_rows(Made::Nothing)),
            Err(error) => Err(pm_oblig::change_error(error)),
        }
    }

    pub(crate) fn check_oblige(&self, item: &Obligation) -> Result<(), ChangeError>
        ensures { Checks self.now (Change.Oblige item.now) result }
    {
        if !may_watch(self.diagram.elements(), item.pattern.user) {
            return Err(ChangeError::Refused(Refusal::BadKinds));
        }
        match self.oblig.check_oblige(item) {
            Ok(()) => Ok(()),
            Err(error) => Err(pm_oblig::change_error(error)),
        }
    }

    pub(crate) fn withdraw(&mut self, index: u32) -> Result<Done, ChangeError>
        requires { index < length self.old.oblig.items }
        ensures { Changes self.old self.new (Change.Withdraw index) result }
    {
        match self.oblig.withdraw_at(index) {
            Ok(_withdrawn) => Ok(Done::without_rows(Made::Nothing)),
            Err(Memory) => Err(ChangeError::Memory),
        }
    }
}
