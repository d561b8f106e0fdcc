//! What a crash leaves of the disk under a desk: a law, with no program.

ghost use Rattle.std.specs.Prelude.{◌≡◌, true};
ghost use Rattle.pm_disk.specs.Disks.{Each, Leaves};
ghost use Rattle.pm_journal.specs.Kept.{IsRecovered, StandsForEntry};
ghost use Rattle.pm_model.specs.declared.requests.Entry.{Entry};

use pm_disk::Disk;
use pm_house::{Desk, Home};
use pm_journal::Keeper;
use pm_machine::Version;

/// A crash at any moment leaves bytes that stand for the desk's history, in its order, or for that and one entry more, which the
/// desk hasn't told as accepted: so no entry that it did is missing. `at_rest` says so between two calls of the keeper, and
/// `under_way` of each moment of a call by which it keeps an entry, as [`Keeper`] tells it.
#[tactic(auto, using(crate::proofs::Leaving::rest_recovers))]
pub fn a_crash_leaves_the_history<V: Version, D: Disk + Drop, H: Home>(desk: &Desk<V, Keeper<D>, H>)
    ensures at_rest { D.tells ≡ true → Each (D.may_leave desk.now.1.journal.disk) (IsRecovered desk.now.0.history) }
    ensures under_way { D.tells ≡ true → (later : D) (entry : Entry) → Leaves D.moment D.left_since desk.now.1.journal.disk later (StandsForEntry desk.now.1.journal.kept desk.now.1.journal.lost entry) → Leaves D.moment D.left_since desk.now.1.journal.disk later (IsRecovered desk.now.0.history) }
{
    desk.kept();
    desk.keeper().recovers();
}
