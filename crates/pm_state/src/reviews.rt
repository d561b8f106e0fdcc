//! Changes of kept reviews.

ghost use Rattle.std.specs.Prelude.{◌≡◌, IsOk};
ghost use Rattle.pm_state.specs.Changes.{Changes, Checks};

use crate::done::Done;
use crate::kinds::may_keep;
use crate::tables::Tables;
use pm_model::{Change, ChangeError, ElementId, Made, Refusal, ReviewOf};

impl Tables {
    pub(crate) fn keep(&mut self, of: ReviewOf<ElementId>) -> Result<Done, ChangeError>
        ensures { Changes self.old self.new (Change.Keep of) result }
    {
        if !may_keep(self.diagram.elements(), &of) {
            return Err(ChangeError::Refused(Refusal::BadKinds));
        }
        match self.kept.keep(of) {
            Ok(number) => Ok(Done::without_rows(Made::Review(number))),
            Err(error) => Err(pm_kept::change_error(error)),
        }
    }

    pub(crate) fn check_keep(&self, of: &ReviewOf<ElementId>) -> Result<(), ChangeError>
        ensures { Checks self.now (Change.Keep of.now) result }
    {
        if !may_keep(self.diagram.elements(), of) {
            return Err(ChangeError::Refused(Refusal::BadKinds));
        }
        match self.kept.check(of) {
            Ok(()) => Ok(()),
            Err(error) => Err(pm_kept::change_error(error)),
        }
    }

    /// It takes no memory, and is never refused.
    pub(crate) fn drop_review(&mut self, number: u32) -> Result<Done, ChangeError>
        ensures changes { Changes self.old self.new (Change.DropReview number) result }
        ensures free { IsOk result }
    {
        self.kept.drop_review(number);
        Ok(Done::without_rows(Made::Nothing))
    }
}
