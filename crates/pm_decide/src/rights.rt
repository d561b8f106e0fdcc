//! All rights of a user on an element at once: what contains what is asked once for all of them.

ghost use Rattle.std.specs.Prelude.{◌≡◌, ◌<◌, ◌^◌, not, ◌&&◌, ◌||◌, None, bit_and};
ghost use Rattle.std.specs.List.{list_any};
ghost use Rattle.pm_model.specs.Decision.{is_met, privilege, forbids, associations_of, rights_on};
ghost use Rattle.pm_model.specs.RightSet.{has_right, right_bits};
ghost use Rattle.pm_decide.specs.Gives.{gives, some_gives};
ghost use Rattle.pm_decide.specs.Hits.{AreHolders, in_word, some_of};
ghost use Rattle.pm_decide.specs.Live.{IsLive, EndsLive, IsAsked, IsAskedIn, GranteeLive, NamesLive, BarsLive};
ghost use Rattle.pm_decide.specs.Sets.{IsSetOf};

use crate::places::may_be_on;
use crate::prohibitions::{applies, in_range};
use crate::words::{holders_above, lowest, without_bit};
use pm_model::{
    Bars, ClassList, ElementId, Grant, Grantee, Grants, Prohibition, Reach, RightWord, Rights,
};

const NO_RIGHTS: Rights = Rights(0);

const ALL_RIGHTS: Rights = Rights(RightWord::MAX);

/// The rights that are in both sets.
pub fn common(a: Rights, b: Rights) -> Rights
    ensures { result ≡ bit_and a b }
{
    Rights(a.0 & b.0)
}

/// The rights of the first set that the second doesn't have.
#[tactic(auto, using(crate::proofs::RightSets::set_without))]
pub fn without(held: Rights, denied: Rights) -> Rights
    ensures small { result < 2 ^ right_bits }
    ensures answer { IsSetOf (λ r. has_right held r && not (has_right denied r)) result }
{
    Rights(held.0 & !denied.0)
}

/// The rights that the grant gives on the element in the class.
fn rights_of_grant<R: Reach>(
    reach: &mut R,
    grant: Grant,
    element: ElementId,
    class: ElementId,
) -> Rights
    requires element { IsLive (R.relation reach.old) element }
    requires class { IsLive (R.relation reach.old) class }
    requires at { IsLive (R.relation reach.old) grant.at }
    ensures answer { IsSetOf (λ r. gives (R.relation reach.old).below r element class grant) result }
    ensures same { R.relation reach.new ≡ R.relation reach.old }
{
    if reach.contains(element, grant.at) && reach.contains(grant.at, class) {
        return grant.rights;
    }
    NO_RIGHTS
}

/// The rights that the grants of a user attribute give on the element in the class.
fn rights_of_grants<R: Reach>(
    reach: &mut R,
    grantee: &Grantee,
    element: ElementId,
    class: ElementId,
) -> Rights
    requires element { IsLive (R.relation reach.old) element }
    requires class { IsLive (R.relation reach.old) class }
    requires grantee { GranteeLive (R.relation reach.old) grantee.now }
    ensures answer { IsSetOf (λ r. some_gives (R.relation reach.old).below r element class grantee.now) result }
    ensures same { R.relation reach.new ≡ R.relation reach.old }
{
    let mut rights = NO_RIGHTS;
    for grant in grantee.grants.as_slice() {
        let more = rights_of_grant(reach, *grant, element, class);
        rights = rights.union(more);
    }
    rights
}

/// The rights that the grants of a user attribute give on the element in the class. The grants are passed
/// by where none can be on what contains it.
fn rights_of_grantee<R: Reach>(
    reach: &mut R,
    grantee: &Grantee,
    element: ElementId,
    class: ElementId,
) -> Rights
    requires element { IsLive (R.relation reach.old) element }
    requires class { IsLive (R.relation reach.old) class }
    requires grantee { GranteeLive (R.relation reach.old) grantee.now }
    ensures answer { IsSetOf (λ r. some_gives (R.relation reach.old).below r element class grantee.now) result }
    ensures same { R.relation reach.new ≡ R.relation reach.old }
{
    if !may_be_on(reach, &grantee.grants, element) {
        return NO_RIGHTS;
    }
    rights_of_grants(reach, grantee, element, class)
}

/// The rights on the element in the class that the grants of those user attributes give whose bit is
/// set. Bit i of the word is the number 64 k + i.
fn rights_given_in<R: Reach, G: Grants>(
    reach: &mut R,
    grants: &G,
    k: u32,
    word: u64,
    element: ElementId,
    class: ElementId,
) -> Rights
    requires element { IsLive (R.relation reach.old) element }
    requires class { IsLive (R.relation reach.old) class }
    requires grants { EndsLive (R.relation reach.old) (G.grantees grants.now) }
    requires place { k < 67108864 }
    requires word { AreHolders (G.grantees grants.now) k word }
    ensures answer { IsSetOf (λ r. some_of (in_word k word) (some_gives (R.relation reach.old).below r element class) (G.grantees grants.now)) result }
    ensures same { R.relation reach.new ≡ R.relation reach.old }
{
    let mut rights = NO_RIGHTS;
    let mut left = word;
    while left > 0 {
        let i = lowest(left);
        let grantee = grants.grantee(ElementId(64 * k + i));
        let more = rights_of_grantee(reach, grantee, element, class);
        rights = rights.union(more);
        left = without_bit(left, i);
    }
    rights
}

/// The rights that the associations give the user on the element in the class. Those alone are looked
/// at whose user attribute contains the user.
fn rights_met<R: Reach, G: Grants>(
    reach: &mut R,
    grants: &G,
    user: ElementId,
    element: ElementId,
    class: ElementId,
) -> Rights
    requires asked { IsAskedIn (R.relation reach.old) (G.grantees grants.now) user element class }
    ensures answer { IsSetOf (λ r. is_met (R.relation reach.old).below (associations_of (G.grantees grants.now)) user r element class) result }
    ensures same { R.relation reach.new ≡ R.relation reach.old }
{
    let mut rights = NO_RIGHTS;
    for k in 0..grants.holder_words() {
        let word = holders_above(reach, grants, user, k);
        let more = rights_given_in(reach, grants, k, word, element, class);
        rights = rights.union(more);
    }
    rights
}

/// The rights that the class leaves the user on the element: all, where it doesn't contain it.
fn rights_in<R: Reach, G: Grants>(
    reach: &mut R,
    grants: &G,
    user: ElementId,
    element: ElementId,
    class: ElementId,
) -> Rights
    requires asked { IsAskedIn (R.relation reach.old) (G.grantees grants.now) user element class }
    ensures answer { IsSetOf (λ r. not ((R.relation reach.old).below element class) || is_met (R.relation reach.old).below (associations_of (G.grantees grants.now)) user r element class) result }
    ensures same { R.relation reach.new ≡ R.relation reach.old }
{
    if !reach.contains(element, class) {
        return ALL_RIGHTS;
    }
    rights_met(reach, grants, user, element, class)
}

/// The privileges of the user on the element, whatever prohibitions there are.
fn privileges_of<R: Reach, G: Grants>(
    reach: &mut R,
    grants: &G,
    classes: &ClassList,
    user: ElementId,
    element: ElementId,
) -> Rights
    requires asked { IsAsked (R.relation reach.old) (G.grantees grants.now) classes.now user element }
    ensures answer { IsSetOf (λ r. privilege (R.relation reach.old).below (associations_of (G.grantees grants.now)) classes.now user r element) result }
    ensures same { R.relation reach.new ≡ R.relation reach.old }
{
    let mut rights = ALL_RIGHTS;
    for i in 0..classes.len() {
        let class = *classes.at(i);
        let in_class = rights_in(reach, grants, user, element, class);
        rights = common(rights, in_class);
        if rights.is_empty() {
            return NO_RIGHTS;
        }
    }
    rights
}

/// The rights on the element that the prohibition denies the user in any process.
fn rights_barred<R: Reach>(
    reach: &mut R,
    bar: &Prohibition,
    user: ElementId,
    element: ElementId,
) -> Rights
    requires bar { NamesLive (R.relation reach.old) bar.now }
    requires user { IsLive (R.relation reach.old) user }
    requires element { IsLive (R.relation reach.old) element }
    ensures answer { IsSetOf (λ r. forbids (R.relation reach.old).below user None r element bar.now) result }
    ensures same { R.relation reach.new ≡ R.relation reach.old }
{
    if applies(reach, bar, user, None) && in_range(reach, bar, element) {
        return bar.rights;
    }
    NO_RIGHTS
}

/// The rights on the element that these prohibitions deny the user in any process.
fn rights_denied_by<R: Reach>(
    reach: &mut R,
    bars: &[Prohibition],
    user: ElementId,
    element: ElementId,
) -> Rights
    requires bars { BarsLive (R.relation reach.old) bars.now }
    requires user { IsLive (R.relation reach.old) user }
    requires element { IsLive (R.relation reach.old) element }
    ensures answer { IsSetOf (λ r. list_any (forbids (R.relation reach.old).below user None r element) bars.now) result }
    ensures same { R.relation reach.new ≡ R.relation reach.old }
{
    let mut rights = NO_RIGHTS;
    for bar in bars {
        let more = rights_barred(reach, bar, user, element);
        rights = rights.union(more);
    }
    rights
}

/// The rights on the element that the prohibitions deny the user in any process.
pub fn rights_denied<R: Reach, B: Bars>(
    reach: &mut R,
    bars: &B,
    user: ElementId,
    element: ElementId,
) -> Rights
    requires bars { BarsLive (R.relation reach.old) (B.prohibitions bars.now) }
    requires user { IsLive (R.relation reach.old) user }
    requires element { IsLive (R.relation reach.old) element }
    ensures answer { IsSetOf (λ r. list_any (forbids (R.relation reach.old).below user None r element) (B.prohibitions bars.now)) result }
    ensures same { R.relation reach.new ≡ R.relation reach.old }
{
    let count = bars.len();
    let mut rights = NO_RIGHTS;
    let mut start = 0;
    while start < count {
        let run = bars.prohibitions_from(start);
        let more = rights_denied_by(reach, run, user, element);
        rights = rights.union(more);
        start += run.len();
    }
    rights
}

/// The rights that the user has on the element: those for which [`privilege`](crate::privilege) says
/// yes and which no prohibition on the user or on a user attribute denies. Prohibitions on processes
/// don't count. `classes` are all policy classes.
///
/// Takes no memory. Each question of containment is asked for all rights at once: at most one for each
/// class and, in each class that contains the element, one for each word of 64 numbers in which there
/// are user attributes with associations, of those that contain the user one for each word that tells what
/// a long list of grants is on, and at most two for each grant; then, for each prohibition on the user or
/// on a user attribute, those that [`first_applying`](crate::first_applying) asks of one that has the
/// right.
pub fn rights_of<R: Reach, G: Grants, B: Bars>(
    reach: &mut R,
    grants: &G,
    bars: &B,
    classes: &ClassList,
    user: ElementId,
    element: ElementId,
) -> Rights
    requires asked { IsAsked (R.relation reach.old) (G.grantees grants.now) classes.now user element }
    requires bars { BarsLive (R.relation reach.old) (B.prohibitions bars.now) }
    ensures answer { result ≡ rights_on (R.relation reach.old).below (associations_of (G.grantees grants.now)) (B.prohibitions bars.now) classes.now user element }
    ensures same { R.relation reach.new ≡ R.relation reach.old }
{
    let held = privileges_of(reach, grants, classes, user, element);
    if held.is_empty() {
        return NO_RIGHTS;
    }
    let denied = rights_denied(reach, bars, user, element);
    without(held, denied)
}
