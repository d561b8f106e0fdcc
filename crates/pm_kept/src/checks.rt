//! What a review would not be kept for. Nothing is changed here.

ghost use Rattle.std.specs.Prelude.{◌≡◌, ◌≢◌, None, OnOk, IfErr};
ghost use Rattle.pm_model.specs.Results.{first_of};
ghost use Rattle.pm_model.specs.Effect.{IsCause};
ghost use Rattle.pm_model.specs.KeptReviews.{keep_checks};
ghost use Rattle.pm_kept.specs.Told.{told};

use crate::errors::KeptError;
use crate::table::KeptReviews;
use pm_model::{ElementId, ReviewOf};

const MAX_REVIEWS: usize = 256;

impl KeptReviews {
    /// Whether the review could be kept: `Already` where one of the same is, `Full` where 256 are, in this order. Looks
    /// at each review.
    pub fn check(&self, of: &ReviewOf<ElementId>) -> Result<(), KeptError>
        ensures fits { OnOk result (first_of (keep_checks self.now of.now) ≡ None) }
        ensures refused { IfErr result (λ e. IsCause (first_of (keep_checks self.now of.now)) (told e)) }
        ensures no_memory { IfErr result (λ e. e ≢ KeptError.Memory) }
    {
        if self.has(of) {
            return Err(KeptError::Already);
        }
        if self.len() >= MAX_REVIEWS {
            return Err(KeptError::Full);
        }
        Ok(())
    }
}
