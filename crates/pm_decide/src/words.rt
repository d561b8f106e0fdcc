//! The user attributes that have associations and that a user is in, by words of 64 numbers: bit i of
//! word k is the number 64 k + i.

ghost use Rattle.std.specs.Prelude.{◌≡◌, ◌<◌, ◌==◌, ◌&&◌, ◌||◌, ℕ, true, false, not};
ghost use Rattle.std.specs.Int.{bit_at};
ghost use Rattle.pm_decide.specs.Live.{IsLive};
ghost use Rattle.pm_decide.specs.Hits.{AreHits};

use pm_model::{ElementId, Grants, Reach};

/// The user attributes of word k that have associations and that the user is in.
pub fn holders_above<R: Reach, G: Grants>(reach: &mut R, grants: &G, user: ElementId, k: u32) -> u64
    requires user { IsLive (R.relation reach.old) user }
    ensures hits { AreHits (R.relation reach.old).below user (G.grantees grants.now) k result }
    ensures same { R.relation reach.new ≡ R.relation reach.old }
{
    let holders = grants.holders(k);
    if holders == 0 {
        return 0;
    }
    holders & reach.above(user, k)
}

/// The place of the lowest bit that is set.
#[tactic(auto, using(crate::proofs::Bits::lowest_bit))]
pub fn lowest(word: u64) -> u32
    requires { 0 < word }
    ensures within { result < 64 }
    ensures set { (bit_at word result == 1) ≡ true }
    ensures first { (j : ℕ) → j < result → (bit_at word j == 1) ≡ false }
{
    word.trailing_zeros()
}

/// The word with one bit more.
#[tactic(auto, using(crate::proofs::Bits::more_bits))]
pub fn with_bit(word: u64, i: u32) -> u64
    requires { i < 64 }
    ensures { (j : ℕ) → j < 64 → (bit_at result j == 1) ≡ (bit_at word j == 1 || j == i) }
{
    word | 1 << i
}

/// The word without one of its bits.
pub fn without_bit(word: u64, i: u32) -> u64
    requires within { i < 64 }
    requires set { (bit_at word i == 1) ≡ true }
    ensures rest { (j : ℕ) → j < 64 → (bit_at result j == 1) ≡ (bit_at word j == 1 && not (j == i)) }
    ensures less { result < word }
{
    word & !(1 << i)
}
