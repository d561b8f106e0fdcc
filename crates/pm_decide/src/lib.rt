//! Privileges, decisions with their reasons and sets of rights, over whatever keeps containment,
//! associations and prohibitions.
#![tactic(auto)]

ghost use Rattle.std.specs.Prelude.{◌≡◌, ◌<◌};
ghost use Rattle.pm_model.specs.Decision.{privilege, associations_of};
ghost use Rattle.pm_model.specs.RightSet.{right_bits};
ghost use Rattle.pm_decide.specs.Live.{IsAsked, BarsLive};
ghost use Rattle.pm_decide.specs.Verdict.{decision};

mod classes;
mod laws;
mod places;
mod prohibitions;
mod rights;
mod verdict;
mod words;

use classes::lacking;
pub use laws::decision_said;
use pm_model::{Bars, ClassList, ElementId, Grants, Reach};
pub use prohibitions::{applies, first_applying, in_range};
pub use rights::{common, rights_denied, rights_of, without};
pub use verdict::Verdict;
pub use words::{holders_above, lowest, without_bit};

/// Whether the user has the right on the element, whatever prohibitions there are: in each of the
/// classes that contain the element some association gives it. An association gives it in a class where
/// its user attribute contains the user, it has the right, and what it is on contains the element and
/// is in the class. The right is a bit; `classes` are all policy classes. Of an element in none of them
/// the answer is yes.
///
/// Takes no memory. Each class costs one question of containment. Where some contain the element, the
/// associations are walked once for up to 64 classes: each word of 64 numbers in which there are user
/// attributes with associations costs one question more. Of those that contain the user, one with a long
/// list of grants, four or more to each word that tells what they are on, costs a question for each such
/// word, up to the first that has what contains the element, and is passed by if none has. Else each grant
/// of the right costs one, and where what it is on contains the element, one more for each class in which
/// none before gave the right. It ends as soon as each class is met, or with the 64 classes among which
/// one isn't.
pub fn privilege<R: Reach, G: Grants>(
    reach: &mut R,
    grants: &G,
    classes: &ClassList,
    user: ElementId,
    right: u8,
    element: ElementId,
) -> bool
    requires right { right < right_bits }
    requires asked { IsAsked (R.relation reach.old) (G.grantees grants.now) classes.now user element }
    ensures answer { result ≡ privilege (R.relation reach.old).below (associations_of (G.grantees grants.now)) classes.now user right element }
    ensures same { R.relation reach.new ≡ R.relation reach.old }
{
    lacking(reach, grants, classes, user, right, element).is_none()
}

/// Whether the user, and the process where there is one, may use the right on the element, and if not,
/// why. The right is a bit; `classes` are all policy classes. Where some class that contains the element
/// doesn't give the right, the answer is the first such class, the lowest where they come by rising
/// number, even if a prohibition denies the right as well.
///
/// Takes no memory, and costs what [`privilege`] and, where the user has it, [`first_applying`] do.
pub fn decide<R: Reach, G: Grants, B: Bars>(
    reach: &mut R,
    grants: &G,
    bars: &B,
    classes: &ClassList,
    user: ElementId,
    process: Option<u32>,
    right: u8,
    element: ElementId,
) -> Verdict
    requires right { right < right_bits }
    requires asked { IsAsked (R.relation reach.old) (G.grantees grants.now) classes.now user element }
    requires bars { BarsLive (R.relation reach.old) (B.prohibitions bars.now) }
    ensures answer { result ≡ decision (R.relation reach.old).below (associations_of (G.grantees grants.now)) (B.prohibitions bars.now) classes.now user process right element }
    ensures same { R.relation reach.new ≡ R.relation reach.old }
{
    match lacking(reach, grants, classes, user, right, element) {
        Some(class) => Verdict::NoClass(class),
        None => match first_applying(reach, bars, user, process, right, element) {
            Some(place) => Verdict::Prohibited(place),
            None => Verdict::Granted,
        },
    }
}
