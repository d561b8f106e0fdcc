//! The first class in which a user lacks a right. A class that contains the element is unmet until a
//! grant gives the right in it. Up to 64 classes are asked about together: a word has a bit for each,
//! by its place among them.

ghost use Rattle.std.specs.Prelude.{◌≡◌, ◌<◌, ◌≤◌, ◌+◌, length, drop, slice_get, Some, IfSome, All};
ghost use Rattle.std.specs.List.{position_from};
ghost use Rattle.pm_model.specs.Decision.{is_met, lacking, associations_of};
ghost use Rattle.pm_model.specs.RightSet.{right_bits};
ghost use Rattle.pm_model.specs.declared.rights.Grant.{Grant};
ghost use Rattle.pm_decide.specs.Gives.{some_gives, is_on};
ghost use Rattle.pm_decide.specs.Hits.{AreHolders, in_word, some_of};
ghost use Rattle.pm_decide.specs.Live.{IsLive, AllLive, EndsLive, IsAsked, GranteeLive};
ghost use Rattle.pm_decide.specs.Unmet.{AreClasses, AreThose, AreLeft};

use crate::places::may_be_on;
use crate::words::{holders_above, lowest, with_bit, without_bit};
use pm_model::{ClassList, ElementId, Grant, Grantee, Grants, Reach};

/// Those of the classes that contain the element.
fn containing<R: Reach>(reach: &mut R, classes: &[ElementId], element: ElementId) -> u64
    requires few { length classes.now ≤ 64 }
    requires classes { AllLive (R.relation reach.old) classes.now }
    requires element { IsLive (R.relation reach.old) element }
    ensures answer { AreThose ((R.relation reach.old).below element) classes.now result }
    ensures same { R.relation reach.new ≡ R.relation reach.old }
{
    let mut word = 0;
    for (i, class) in classes.iter().enumerate() {
        if reach.contains(element, *class) {
            word = with_bit(word, i as u32);
        }
    }
    word
}

/// Those of the unmet classes that don't contain the element that a grant is on.
fn left_by_place<R: Reach>(reach: &mut R, classes: &[ElementId], unmet: u64, at: ElementId) -> u64
    requires unmet { AreClasses (R.relation reach.old) classes.now unmet }
    requires at { IsLive (R.relation reach.old) at }
    ensures left { AreLeft ((R.relation reach.old).below at) classes.now unmet result }
    ensures same { R.relation reach.new ≡ R.relation reach.old }
{
    let mut left = unmet;
    let mut unasked = unmet;
    while unasked > 0 {
        let i = lowest(unasked);
        unasked = without_bit(unasked, i);
        if reach.contains(at, classes[i as usize]) {
            left = without_bit(left, i);
        }
    }
    left
}

/// The place of the first grant that has the right and is on what contains the element.
fn next_on<R: Reach>(
    reach: &mut R,
    grants: &[Grant],
    right: u8,
    element: ElementId,
) -> Option<usize>
    requires grants { All (λ (h : Grant). IsLive (R.relation reach.old) h.at) grants.now }
    requires right { right < right_bits }
    requires element { IsLive (R.relation reach.old) element }
    ensures answer { result ≡ position_from (is_on (R.relation reach.old).below right element) 0 grants.now }
    ensures within { IfSome result (λ i. i < length grants.now) }
    ensures same { R.relation reach.new ≡ R.relation reach.old }
{
    reach.first_on(element, right, grants)
}

/// The grant at a place.
fn grant_at(grants: &[Grant], i: usize) -> Grant
    requires { i < length grants.now }
    ensures { slice_get grants.now i ≡ Some result }
{
    grants[i]
}

/// The grants behind a place.
fn behind(grants: &[Grant], i: usize) -> &[Grant]
    requires { i < length grants.now }
    ensures { result.now ≡ drop (i + 1) grants.now }
{
    &grants[i + 1..]
}

/// Those of the unmet classes in which no grant of the user attribute gives the right on the element.
fn left_by_grants<R: Reach>(
    reach: &mut R,
    classes: &[ElementId],
    unmet: u64,
    grantee: &Grantee,
    right: u8,
    element: ElementId,
) -> u64
    requires unmet { AreClasses (R.relation reach.old) classes.now unmet }
    requires grantee { GranteeLive (R.relation reach.old) grantee.now }
    requires right { right < right_bits }
    requires element { IsLive (R.relation reach.old) element }
    ensures left { AreLeft (λ pc. some_gives (R.relation reach.old).below right element pc grantee.now) classes.now unmet result }
    ensures same { R.relation reach.new ≡ R.relation reach.old }
{
    let mut left = unmet;
    let mut rest = grantee.grants.as_slice();
    while left > 0 {
        match next_on(reach, rest, right, element) {
            None => return left,
            Some(i) => {
                left = left_by_place(reach, classes, left, grant_at(rest, i).at);
                rest = behind(rest, i);
            }
        }
    }
    left
}

/// Those of the unmet classes in which no grant of the user attribute gives the right on the element. The grants
/// are passed by where none can be on what contains it.
fn left_by_grantee<R: Reach>(
    reach: &mut R,
    classes: &[ElementId],
    unmet: u64,
    grantee: &Grantee,
    right: u8,
    element: ElementId,
) -> u64
    requires unmet { AreClasses (R.relation reach.old) classes.now unmet }
    requires grantee { GranteeLive (R.relation reach.old) grantee.now }
    requires right { right < right_bits }
    requires element { IsLive (R.relation reach.old) element }
    ensures left { AreLeft (λ pc. some_gives (R.relation reach.old).below right element pc grantee.now) classes.now unmet result }
    ensures same { R.relation reach.new ≡ R.relation reach.old }
{
    if !may_be_on(reach, &grantee.grants, element) {
        return unmet;
    }
    left_by_grants(reach, classes, unmet, grantee, right, element)
}

/// Those of the unmet classes in which no grant of those user attributes whose bit is set gives the right on the
/// element. Bit i of the word is the number 64 k + i.
fn left_by_word<R: Reach, G: Grants>(
    reach: &mut R,
    grants: &G,
    classes: &[ElementId],
    unmet: u64,
    k: u32,
    word: u64,
    right: u8,
    element: ElementId,
) -> u64
    requires unmet { AreClasses (R.relation reach.old) classes.now unmet }
    requires grants { EndsLive (R.relation reach.old) (G.grantees grants.now) }
    requires place { k < 67108864 }
    requires word { AreHolders (G.grantees grants.now) k word }
    requires right { right < right_bits }
    requires element { IsLive (R.relation reach.old) element }
    ensures left { AreLeft (λ pc. some_of (in_word k word) (some_gives (R.relation reach.old).below right element pc) (G.grantees grants.now)) classes.now unmet result }
    ensures same { R.relation reach.new ≡ R.relation reach.old }
{
    let mut left = unmet;
    let mut unasked = word;
    while unasked > 0 {
        if left == 0 {
            return 0;
        }
        let i = lowest(unasked);
        let grantee = grants.grantee(ElementId(64 * k + i));
        left = left_by_grantee(reach, classes, left, grantee, right, element);
        unasked = without_bit(unasked, i);
    }
    left
}

/// Those of the unmet classes in which no association gives the user the right on the element. Those alone are
/// looked at whose user attribute contains the user, until each class is met.
fn left_by_user<R: Reach, G: Grants>(
    reach: &mut R,
    grants: &G,
    classes: &[ElementId],
    unmet: u64,
    user: ElementId,
    right: u8,
    element: ElementId,
) -> u64
    requires unmet { AreClasses (R.relation reach.old) classes.now unmet }
    requires grants { EndsLive (R.relation reach.old) (G.grantees grants.now) }
    requires user { IsLive (R.relation reach.old) user }
    requires right { right < right_bits }
    requires element { IsLive (R.relation reach.old) element }
    ensures left { AreLeft (is_met (R.relation reach.old).below (associations_of (G.grantees grants.now)) user right element) classes.now unmet result }
    ensures same { R.relation reach.new ≡ R.relation reach.old }
{
    let mut left = unmet;
    for k in 0..grants.holder_words() {
        if left == 0 {
            return 0;
        }
        let word = holders_above(reach, grants, user, k);
        left = left_by_word(reach, grants, classes, left, k, word, right, element);
    }
    left
}

/// The first of at most 64 classes that contains the element and in which no association gives the
/// user the right.
fn lacking_among<R: Reach, G: Grants>(
    reach: &mut R,
    grants: &G,
    classes: &[ElementId],
    user: ElementId,
    right: u8,
    element: ElementId,
) -> Option<ElementId>
    requires few { length classes.now ≤ 64 }
    requires right { right < right_bits }
    requires asked { IsAsked (R.relation reach.old) (G.grantees grants.now) classes.now user element }
    ensures answer { result ≡ lacking (R.relation reach.old).below (associations_of (G.grantees grants.now)) classes.now user right element }
    ensures same { R.relation reach.new ≡ R.relation reach.old }
{
    let unmet = containing(reach, classes, element);
    let left = left_by_user(reach, grants, classes, unmet, user, right, element);
    if left == 0 {
        return None;
    }
    Some(classes[lowest(left) as usize])
}

/// The first class that contains the element and in which no association gives the user the right.
pub fn lacking<R: Reach, G: Grants>(
    reach: &mut R,
    grants: &G,
    classes: &ClassList,
    user: ElementId,
    right: u8,
    element: ElementId,
) -> Option<ElementId>
    requires right { right < right_bits }
    requires asked { IsAsked (R.relation reach.old) (G.grantees grants.now) classes.now user element }
    ensures answer { result ≡ lacking (R.relation reach.old).below (associations_of (G.grantees grants.now)) classes.now user right element }
    ensures same { R.relation reach.new ≡ R.relation reach.old }
{
    for chunk in classes.as_slice().chunks(64) {
        let found = lacking_among(reach, grants, chunk, user, right, element);
        if found.is_some() {
            return found;
        }
    }
    None
}
