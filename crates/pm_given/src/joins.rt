//! The rights on an element, joined from those at the elements that contain it.

ghost use Rattle.std.specs.Prelude.{◌≡◌, ◌<◌, ◌*◌, ◌≤◌, ◌+◌, ◌==◌, ◌&&◌, ◌||◌, ℕ, true, not, List, length, slice_index};
ghost use Rattle.std.specs.Int.{bit_at};
ghost use Rattle.std.specs.List.{list_any, list_all};
ghost use Rattle.pm_model.specs.Decision.{classes_of};
ghost use Rattle.pm_model.specs.RightSet.{has_right};
ghost use Rattle.pm_model.specs.declared.rights.Grant.{Grant};
ghost use Rattle.pm_decide.specs.Gives.{gives};
ghost use Rattle.pm_decide.specs.Live.{IsLive, AllLive};
ghost use Rattle.pm_decide.specs.Sets.{IsSetOf};
ghost use Rattle.pm_given.specs.Told.{AreNoted, AreTold, is_marked};
ghost use Rattle.pm_given.specs.Joins.{AreIn, gives_in};

use pm_decide::{common, lowest, without_bit};
use pm_model::{ClassList, ElementId, Reach, RightWord, Rights};

pub(crate) const NO_RIGHTS: Rights = Rights(0);

const ALL_RIGHTS: Rights = Rights(RightWord::MAX);

/// The rights at the element itself, if it is in the class.
fn rights_at<R: Reach>(own: &[u64], reach: &mut R, p: ElementId, class: ElementId) -> Rights
    requires within { p < length own.now }
    requires p { IsLive (R.relation reach.old) p }
    requires class { IsLive (R.relation reach.old) class }
    ensures answer { IsSetOf (λ r. (R.relation reach.old).below p class && has_right (slice_index own.now p) r) result }
    ensures same { R.relation reach.new ≡ R.relation reach.old }
{
    if !reach.contains(p, class) {
        return NO_RIGHTS;
    }
    Rights(own[p.number() as usize])
}

/// The rights at those elements that are in the class and whose bit is set.
fn rights_of_word<R: Reach>(
    own: &[u64],
    reach: &mut R,
    k: u32,
    word: u64,
    class: ElementId,
) -> Rights
    requires within { 64 * k + 64 ≤ length own.now }
    requires few { k < 67108864 }
    requires class { IsLive (R.relation reach.old) class }
    requires live { (i : ℕ) → i < 64 → (bit_at word i == 1) ≡ true → IsLive (R.relation reach.old) (64 * k + i) }
    ensures answer { (L : List Grant) (marks : List ℕ) (e : ℕ) → AreTold L own.now marks → AreIn (R.relation reach.old).below e k word → IsSetOf (λ r. list_any (gives_in (R.relation reach.old).below k word r e class) L) result }
    ensures same { R.relation reach.new ≡ R.relation reach.old }
{
    let mut rights = NO_RIGHTS;
    let mut left = word;
    while left > 0 {
        let i = lowest(left);
        let more = rights_at(own, reach, ElementId(64 * k + i), class);
        rights = rights.union(more);
        left = without_bit(left, i);
    }
    rights
}

/// Those that contain the element, of word k of the marks.
fn marked_above<R: Reach>(marks: &[u64], reach: &mut R, k: u32, element: ElementId) -> u64
    requires within { k < length marks.now }
    requires few { length marks.now ≤ 67108864 }
    requires element { IsLive (R.relation reach.old) element }
    ensures word { (i : ℕ) → i < 64 → (bit_at result i == 1) ≡ (is_marked marks.now (64 * k + i) && (R.relation reach.old).below element (64 * k + i)) }
    ensures same { R.relation reach.new ≡ R.relation reach.old }
{
    marks[k as usize] & reach.above(element, k)
}

/// The rights that are given on the element in the class.
fn rights_met<R: Reach>(
    own: &[u64],
    marks: &[u64],
    places: &[u32],
    reach: &mut R,
    element: ElementId,
    class: ElementId,
) -> Rights
    requires long { 64 * length marks.now ≤ length own.now }
    requires few { length marks.now ≤ 67108864 }
    requires noted { AreNoted places.now marks.now }
    requires element { IsLive (R.relation reach.old) element }
    requires class { IsLive (R.relation reach.old) class }
    requires live { (p : ℕ) → is_marked marks.now p ≡ true → IsLive (R.relation reach.old) p }
    ensures answer { (L : List Grant) → AreTold L own.now marks.now → IsSetOf (λ r. list_any (gives (R.relation reach.old).below r element class) L) result }
    ensures same { R.relation reach.new ≡ R.relation reach.old }
{
    let mut rights = NO_RIGHTS;
    for i in 0..places.len() {
        let k = places[i];
        let word = marked_above(marks, reach, k, element);
        let more = rights_of_word(own, reach, k, word, class);
        rights = rights.union(more);
    }
    rights
}

/// The rights that the class leaves on the element: all, where it doesn't contain it.
fn rights_left<R: Reach>(
    own: &[u64],
    marks: &[u64],
    places: &[u32],
    reach: &mut R,
    element: ElementId,
    class: ElementId,
) -> Rights
    requires long { 64 * length marks.now ≤ length own.now }
    requires few { length marks.now ≤ 67108864 }
    requires noted { AreNoted places.now marks.now }
    requires element { IsLive (R.relation reach.old) element }
    requires class { IsLive (R.relation reach.old) class }
    requires live { (p : ℕ) → is_marked marks.now p ≡ true → IsLive (R.relation reach.old) p }
    ensures answer { (L : List Grant) → AreTold L own.now marks.now → IsSetOf (λ r. not ((R.relation reach.old).below element class) || list_any (gives (R.relation reach.old).below r element class) L) result }
    ensures same { R.relation reach.new ≡ R.relation reach.old }
{
    if !reach.contains(element, class) {
        return ALL_RIGHTS;
    }
    rights_met(own, marks, places, reach, element, class)
}

/// The rights that are given on the element in each class that contains it.
pub(crate) fn rights_held<R: Reach>(
    own: &[u64],
    marks: &[u64],
    places: &[u32],
    reach: &mut R,
    classes: &ClassList,
    element: ElementId,
) -> Rights
    requires long { 64 * length marks.now ≤ length own.now }
    requires few { length marks.now ≤ 67108864 }
    requires noted { AreNoted places.now marks.now }
    requires element { IsLive (R.relation reach.old) element }
    requires classes { AllLive (R.relation reach.old) classes.now }
    requires live { (p : ℕ) → is_marked marks.now p ≡ true → IsLive (R.relation reach.old) p }
    ensures answer { (L : List Grant) → AreTold L own.now marks.now → IsSetOf (λ r. list_all (λ c. list_any (gives (R.relation reach.old).below r element c) L) (classes_of (R.relation reach.old).below classes.now element)) result }
    ensures same { R.relation reach.new ≡ R.relation reach.old }
{
    let mut rights = ALL_RIGHTS;
    for i in 0..classes.len() {
        let class = *classes.at(i);
        let left = rights_left(own, marks, places, reach, element, class);
        rights = common(rights, left);
        if rights.is_empty() {
            return NO_RIGHTS;
        }
    }
    rights
}
