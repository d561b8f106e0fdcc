//! What associations are on. A list of them that has words beside it is passed by where none of these
//! has a number that contains the element asked about.

ghost use Rattle.std.specs.Prelude.{◌≡◌, false};
ghost use Rattle.pm_decide.specs.Live.{IsLive};
ghost use Rattle.pm_decide.specs.Places.{some_on, NoneContains};

use pm_model::{ElementId, GrantList, PlaceWord, Reach};

/// To how many associations there is at most one word, where the words are looked at before the associations:
/// a look at a word takes as long as one at an association.
const GRANTS_A_WORD: usize = 4;

/// Whether some number of the words contains the element.
fn some_contains<R: Reach>(reach: &mut R, places: &[PlaceWord], element: ElementId) -> bool
    requires element { IsLive (R.relation reach.old) element }
    ensures none { result ≡ false → NoneContains (R.relation reach.old).below element places.now }
    ensures same { R.relation reach.new ≡ R.relation reach.old }
{
    for place in places {
        if reach.above(element, place.k) & place.word != 0 {
            return true;
        }
    }
    false
}

/// Whether some association of the list may be on what contains the element. It may say yes where none
/// is, and never no where one is.
pub(crate) fn may_be_on<R: Reach>(reach: &mut R, grants: &GrantList, element: ElementId) -> bool
    requires element { IsLive (R.relation reach.old) element }
    ensures none { result ≡ false → some_on (R.relation reach.old).below element grants.now ≡ false }
    ensures same { R.relation reach.new ≡ R.relation reach.old }
{
    let places = grants.places();
    if 0 < places.len() && places.len() <= grants.len() / GRANTS_A_WORD {
        return some_contains(reach, places, element);
    }
    true
}
