//! A row's words. Number y is in the row where bit y % 64 of word y / 64 is set; a row is only as long
//! as it has to be.

ghost use Rattle.std.specs.Prelude.{◌≡◌, ℕ, ◌<◌, ◌≤◌, ◌+◌, ◌*◌, ◌==◌, ◌||◌, ◌/◌, true, false, length, slice_index, vec_len, vec_capacity, IfOk};
ghost use Rattle.std.specs.Int.{bit_at};
ghost use Rattle.std.specs.Bool.{OnTrue};
ghost use Rattle.std.specs.List.{list_any};
ghost use Rattle.pm_reach.specs.Words.{in_row};
ghost use Rattle.pm_reach.specs.Rows.{most};

use pm_model::Memory;
use std::alloc::Global;
use std::cmp::{max, min};

/// Whether the row has y.
#[tactic(auto, using(crate::proofs::Bits::past_row))]
pub(crate) fn has(words: &[u64], y: u32) -> bool
    ensures { result ≡ in_row words.now y }
{
    let i = y as usize / 64;
    i < words.len() && (words[i] >> (y % 64)) & 1 == 1
}

/// Word k of the row: bit i says whether the row has 64 k + i.
#[tactic(auto, using(crate::proofs::WholeWords::word_at, crate::proofs::WholeWords::word_past))]
pub(crate) fn word(words: &[u64], k: u32) -> u64
    ensures { (i : ℕ) → i < 64 → (bit_at result i == 1) ≡ in_row words.now (64 * k + i) }
{
    let k = k as usize;
    if k < words.len() { words[k] } else { 0 }
}

/// The least number from z on in the word of z that the row has; where the next word begins, if there is
/// none.
fn next_in_word(words: &[u64], z: u32) -> u32
    requires few { z < most }
    ensures from { z ≤ result }
    ensures to { result ≤ (z / 64 + 1) * 64 }
    ensures none { (p : ℕ) → z ≤ p → p < result → in_row words.now p ≡ false }
    ensures there { result < (z / 64 + 1) * 64 → in_row words.now result ≡ true }
{
    let rest = word(words, z / 64) >> (z % 64);
    let found = z + rest.trailing_zeros();
    let end = (z / 64 + 1) * 64;
    if found < end { found } else { end }
}

/// The least number from `from` on that the row has, if it is below `high`; a number from `high` on where
/// there is none.
pub(crate) fn next(words: &[u64], from: u32, high: u32) -> u32
    requires from { from ≤ most }
    requires high { high ≤ most }
    ensures from { from ≤ result }
    ensures to { result ≤ most }
    ensures none { (p : ℕ) → from ≤ p → p < result → in_row words.now p ≡ false }
    ensures there { result < high → in_row words.now result ≡ true }
{
    let mut z = from;
    while z < high {
        let end = (z / 64 + 1) * 64;
        z = next_in_word(words, z);
        if z < end {
            return z;
        }
    }
    z
}

/// Whether some number above z is in both rows.
pub(crate) fn meet_above(words: &[u64], other: &[u64], z: u32) -> bool
    ensures { result ≡ false → (q : ℕ) → z < q → in_row words.now q ≡ true → in_row other.now q ≡ false }
{
    let k = z / 64;
    let here = word(words, k) & word(other, k);
    if here >> (z % 64) >> 1 != 0 {
        return true;
    }
    meet_from(words, other, k as usize + 1)
}

/// Whether some number is in both rows from a word on.
fn meet_from(words: &[u64], other: &[u64], k: usize) -> bool
    ensures { result ≡ false → (q : ℕ) → k ≤ q / 64 → in_row words.now q ≡ true → in_row other.now q ≡ false }
{
    for i in k..min(words.len(), other.len()) {
        if words[i] & other[i] != 0 {
            return true;
        }
    }
    false
}

/// Whether the row has all that the other row has. It may be no, too, where the row is the shorter one.
pub(crate) fn has_all(words: &[u64], other: &[u64]) -> bool
    ensures { OnTrue result ((q : ℕ) → in_row other.now q ≡ true → in_row words.now q ≡ true) }
{
    if words.len() < other.len() {
        return false;
    }
    for i in 0..other.len() {
        if words[i] | other[i] != words[i] {
            return false;
        }
    }
    true
}

/// Puts what the other row has into this one, which is at least as long.
fn unite(into: &mut [u64], from: &[u64])
    requires { length from.now ≤ length into.old }
    ensures row { (y : ℕ) → in_row into.new y ≡ (in_row into.old y || in_row from.now y) }
    ensures long { length into.new ≡ length into.old }
{
    for i in 0..from.len() {
        into[i] |= from[i];
    }
}

/// Puts what the other row has into this one, which has words for all of it.
pub(crate) fn unite_within(into: &mut [u64], from: &[u64])
    requires { (y : ℕ) → in_row from.now y ≡ true → y < 64 * length into.old }
    ensures row { (y : ℕ) → in_row into.new y ≡ (in_row into.old y || in_row from.now y) }
    ensures long { length into.new ≡ length into.old }
{
    let n = min(into.len(), from.len());
    unite(into, &from[..n]);
}

/// Puts y into the row.
pub(crate) fn set_bit(words: &mut [u64], y: u32)
    requires { y < 64 * length words.old }
    ensures set { (q : ℕ) → in_row words.new q ≡ (q == y || in_row words.old q) }
    ensures long { length words.new ≡ length words.old }
{
    words[y as usize / 64] |= 1 << (y % 64);
}

/// Puts these numbers into an empty row.
pub(crate) fn put(words: &mut [u64], numbers: &[u32])
    requires fits { (q : ℕ) → list_any (λ n. n == q) numbers.now ≡ true → q < 64 * length words.old }
    requires none { (q : ℕ) → in_row words.old q ≡ false }
    ensures row { (q : ℕ) → in_row words.new q ≡ list_any (λ n. n == q) numbers.now }
    ensures long { length words.new ≡ length words.old }
{
    for n in numbers {
        set_bit(words, *n);
    }
}

/// Empties the row, and leaves its words.
#[tactic(auto, using(crate::proofs::Bits::bit_none))]
pub(crate) fn empty(words: &mut [u64])
    ensures long { length words.new ≡ length words.old }
    ensures none { (q : ℕ) → in_row words.new q ≡ false }
{
    words.fill(0);
}

/// How many words the row needs.
fn used(words: &[u64]) -> usize
    ensures within { result ≤ length words.now }
    ensures rest { (k : ℕ) → result ≤ k → slice_index words.now k ≡ 0 }
{
    let mut n = words.len();
    while n > 0 && words[n - 1] == 0 {
        n -= 1;
    }
    n
}

/// Lets go the words that the row doesn't need.
#[tactic(auto, using(crate::proofs::Bits::zero_less))]
fn trim(words: &mut Vec<u64>)
    ensures { (q : ℕ) → in_row words.new.items q ≡ in_row words.old.items q }
{
    let n = used(words.as_slice());
    words.truncate(n);
}

/// Makes the row at least so long, in the room that it has.
#[tactic(auto, using(crate::proofs::Bits::zero_more))]
fn lengthen(words: &mut Vec<u64>, n: usize)
    requires { n ≤ vec_capacity words.old }
    ensures long { n ≤ vec_len words.new }
    ensures same { (q : ℕ) → in_row words.new.items q ≡ in_row words.old.items q }
{
    while words.len() < n {
        words.push_reserved(0);
    }
}

/// Puts what the other row has into this one, in the room that it has.
#[tactic(auto, using(crate::proofs::Bits::within_row))]
pub(crate) fn join(words: &mut Vec<u64>, other: &[u64])
    requires { length other.now ≤ vec_capacity words.old }
    ensures { (q : ℕ) → in_row words.new.items q ≡ (in_row words.old.items q || in_row other.now q) }
{
    lengthen(words, other.len());
    unite(words.as_mut_slice(), other);
}

/// Lets the row have what the other row has, for all of which it has words, and nothing else. It leaves its words.
fn refill(words: &mut [u64], other: &[u64])
    requires { (y : ℕ) → in_row other.now y ≡ true → y < 64 * length words.old }
    ensures row { (q : ℕ) → in_row words.new q ≡ in_row other.now q }
    ensures long { length words.new ≡ length words.old }
{
    empty(words);
    unite_within(words, other);
}

/// Makes the row have what the other row has, which it has already, and nothing else.
pub(crate) fn overwrite(words: &mut Vec<u64>, other: &[u64])
    requires { (q : ℕ) → in_row other.now q ≡ true → in_row words.old.items q ≡ true }
    ensures { (q : ℕ) → in_row words.new.items q ≡ in_row other.now q }
{
    refill(words.as_mut_slice(), other);
    trim(words);
}

/// The row with y and what the other row has.
pub(crate) fn row_with(alloc: Global, y: u32, other: &[u64]) -> Result<Vec<u64>, Memory>
    ensures { IfOk result (λ words. (q : ℕ) → in_row words.items q ≡ (q == y || in_row other.now q)) }
{
    let size = max(y as usize / 64 + 1, other.len());
    let mut words = Vec::with_capacity(alloc, size)?;
    lengthen(&mut words, size);
    unite(words.as_mut_slice(), other);
    set_bit(words.as_mut_slice(), y);
    Ok(words)
}
