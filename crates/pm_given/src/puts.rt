//! Grants put together by the element that they are on.

ghost use Rattle.std.specs.Prelude.{◌≡◌, ◌<◌, ◌*◌, ◌||◌, ℕ, true, Option, length, All};
ghost use Rattle.std.specs.List.{list_any};
ghost use Rattle.pm_model.specs.declared.rights.Grant.{Grant};
ghost use Rattle.pm_model.specs.declared.rights.Grantee.{Grantee};
ghost use Rattle.pm_decide.specs.Hits.{AreHolders, in_word, some_of};
ghost use Rattle.pm_decide.specs.Live.{IsLive};
ghost use Rattle.pm_given.specs.Given.{given, is_at, some_at};
ghost use Rattle.pm_given.specs.Told.{AreWithin, AllWithin, tells};

use pm_decide::{holders_above, lowest, without_bit};
use pm_model::{ElementId, Grant, Grants, Reach};

/// Puts the rights of a grant to those at the element that it is on.
fn put(own: &mut [u64], marks: &mut [u64], grant: Grant)
    requires within { grant.at < length own.old }
    requires long { length own.old ≡ 64 * length marks.old }
    ensures told { (q : Option ℕ) (p : ℕ) → tells own.new marks.new q p ≡ (tells own.old marks.old q p || is_at q p grant) }
    ensures own { length own.new ≡ length own.old }
    ensures marks { length marks.new ≡ length marks.old }
{
    let n = grant.at.number();
    own[n as usize] |= grant.rights.0;
    marks[n as usize / 64] |= 1 << (n % 64);
}

/// Puts these grants to the others.
fn put_all(own: &mut [u64], marks: &mut [u64], grants: &[Grant])
    requires within { AreWithin (length own.old) grants.now }
    requires long { length own.old ≡ 64 * length marks.old }
    ensures told { (q : Option ℕ) (p : ℕ) → tells own.new marks.new q p ≡ (tells own.old marks.old q p || list_any (is_at q p) grants.now) }
    ensures own { length own.new ≡ length own.old }
    ensures marks { length marks.new ≡ length marks.old }
{
    for grant in grants {
        put(own, marks, *grant);
    }
}

/// Puts the grants of those user attributes to the others whose bit is set. Bit i of the word is the number 64 k + i.
fn put_word<G: Grants>(own: &mut [u64], marks: &mut [u64], grants: &G, k: u32, word: u64)
    requires within { AllWithin (length own.old) (G.grantees grants.now) }
    requires long { length own.old ≡ 64 * length marks.old }
    requires place { k < 67108864 }
    requires word { AreHolders (G.grantees grants.now) k word }
    ensures told { (q : Option ℕ) (p : ℕ) → tells own.new marks.new q p ≡ (tells own.old marks.old q p || some_of (in_word k word) (some_at q p) (G.grantees grants.now)) }
    ensures own { length own.new ≡ length own.old }
    ensures marks { length marks.new ≡ length marks.old }
{
    let mut left = word;
    while left > 0 {
        let i = lowest(left);
        let grantee = grants.grantee(ElementId(64 * k + i));
        put_all(own, marks, grantee.grants.as_slice());
        left = without_bit(left, i);
    }
}

/// Puts the grants of the user attributes to the others that contain the user.
pub(crate) fn put_given<R: Reach, G: Grants>(
    own: &mut [u64],
    marks: &mut [u64],
    reach: &mut R,
    grants: &G,
    user: ElementId,
)
    requires user { IsLive (R.relation reach.old) user }
    requires within { AllWithin (length own.old) (G.grantees grants.now) }
    requires long { length own.old ≡ 64 * length marks.old }
    ensures told { (q : Option ℕ) (p : ℕ) → tells own.new marks.new q p ≡ (tells own.old marks.old q p || list_any (is_at q p) (given (R.relation reach.old).below user (G.grantees grants.now))) }
    ensures own { length own.new ≡ length own.old }
    ensures marks { length marks.new ≡ length marks.old }
    ensures same { R.relation reach.new ≡ R.relation reach.old }
{
    for k in 0..grants.holder_words() {
        let word = holders_above(reach, grants, user, k);
        put_word(own, marks, grants, k, word);
    }
}
