//! A set of numbers in words of 64: bit i of word k is the number 64 k + i. It tells of any number how
//! many of its numbers are lower, from a count beside each word and the bits of one word.

ghost use Rattle.std.specs.Prelude.{◌≡◌, ℕ, ◌<◌, ◌≤◌, ◌+◌, ◌*◌, ◌/◌, ◌%◌, ◌^◌, ◌==◌, ◌||◌, ◌&&◌, not, max, [], count_ones, length, vec_len, vec_capacity, slice_index, OnOk, IfOk};
ghost use Rattle.std.specs.Int.{bit_at};
ghost use Rattle.pm_assoc.specs.Holders.{in_set, count_below};

use pm_model::Memory;
use std::alloc::Global;
use std::marker::Model;

/// The set. A copy takes 12 bytes a word: 3 KB where the numbers are below 16,384.
pub(crate) struct Holders {
    words: Vec<u64>,
    /// For each word, how many numbers stand in the words before it.
    before: Vec<u32>,
    count: usize,
}

impl Drop for Holders {
    fn drop(self) {
        let Holders {
            words: _,
            before: _,
            count: _,
        } = self;
    }
}

impl Model for Holders {
    ghost use Rattle.std.specs.Prelude.{ℕ, List};

    ghost Value = { List ℕ };

    ghost use Rattle.pm_assoc.specs.Counted.{words_of, IsCounted};

    ghost view = { words_of };

    ghost invariant = { IsCounted };
}

/// Lengthens the set by words without numbers, in the room that it has.
#[tactic(auto, using(crate::proofs::SetBits::no_more))]
fn lengthen(words: &mut Vec<u64>, n: usize)
    requires { n ≤ vec_capacity words.old }
    ensures long { vec_len words.new ≡ max (vec_len words.old) n }
    ensures same { (q : ℕ) → in_set words.new.items q ≡ in_set words.old.items q }
{
    while words.len() < n {
        words.push_reserved(0);
    }
}

/// Lengthens the counts by this one, in the room that they have.
fn lengthen_counts(counts: &mut Vec<u32>, n: usize, count: u32)
    requires { n ≤ vec_capacity counts.old }
    ensures long { vec_len counts.new ≡ max (vec_len counts.old) n }
    ensures ahead { (k : ℕ) → k < vec_len counts.old → slice_index counts.new.items k ≡ slice_index counts.old.items k }
    ensures behind { (k : ℕ) → vec_len counts.old ≤ k → k < n → slice_index counts.new.items k ≡ count }
{
    while counts.len() < n {
        counts.push_reserved(count);
    }
}

/// Puts a number into the set.
#[tactic(auto, using(crate::proofs::SetBits::bit_set))]
fn set_bit(words: &mut Vec<u64>, number: u32)
    requires { number / 64 < vec_len words.old }
    ensures long { vec_len words.new ≡ vec_len words.old }
    ensures set { (q : ℕ) → in_set words.new.items q ≡ (q == number || in_set words.old.items q) }
{
    words[number as usize / 64] |= 1 << (number % 64);
}

/// Takes a number out of the set.
#[tactic(auto, using(crate::proofs::SetBits::bit_clear))]
fn clear_bit(words: &mut Vec<u64>, number: u32)
    requires { number / 64 < vec_len words.old }
    ensures long { vec_len words.new ≡ vec_len words.old }
    ensures cleared { (q : ℕ) → in_set words.new.items q ≡ (in_set words.old.items q && not (q == number)) }
{
    words[number as usize / 64] &= !(1 << (number % 64));
}

/// One more in each count from a place on.
fn raise(counts: &mut Vec<u32>, first: usize)
    requires { (k : ℕ) → first ≤ k → k < vec_len counts.old → slice_index counts.old.items k < 4294967295 }
    ensures long { vec_len counts.new ≡ vec_len counts.old }
    ensures ahead { (k : ℕ) → k < first → slice_index counts.new.items k ≡ slice_index counts.old.items k }
    ensures behind { (k : ℕ) → first ≤ k → k < vec_len counts.old → slice_index counts.new.items k ≡ slice_index counts.old.items k + 1 }
{
    let mut k = first;
    while k < counts.len() {
        counts[k] += 1;
        k += 1;
    }
}

/// One less in each count from a place on.
fn lower(counts: &mut Vec<u32>, first: usize)
    requires { (k : ℕ) → first ≤ k → k < vec_len counts.old → 0 < slice_index counts.old.items k }
    ensures long { vec_len counts.new ≡ vec_len counts.old }
    ensures ahead { (k : ℕ) → k < first → slice_index counts.new.items k ≡ slice_index counts.old.items k }
    ensures behind { (k : ℕ) → first ≤ k → k < vec_len counts.old → slice_index counts.new.items k + 1 ≡ slice_index counts.old.items k }
{
    let mut k = first;
    while k < counts.len() {
        counts[k] -= 1;
        k += 1;
    }
}

/// Word k of the set: bit i says whether it has 64 k + i.
#[tactic(auto, using(crate::proofs::SetBits::word_at, crate::proofs::SetBits::word_past))]
fn word_of(words: &[u64], k: u32) -> u64
    ensures { (i : ℕ) → i < 64 → (bit_at result i == 1) ≡ in_set words.now (64 * k + i) }
{
    let k = k as usize;
    if k < words.len() { words[k] } else { 0 }
}

/// Whether the set has a number.
fn has_bit(words: &[u64], number: u32) -> bool
    ensures { result ≡ in_set words.now number }
{
    let k = number as usize / 64;
    k < words.len() && (words[k] >> (number % 64)) & 1 == 1
}

/// How many numbers of a word are lower than a number of that word.
fn lower_in(word: u64, number: u32) -> u32
    ensures { result ≡ count_ones (word % 2 ^ (number % 64)) }
{
    (word & ((1 << (number % 64)) - 1)).count_ones()
}

impl Holders {
    /// The set without numbers, which takes no memory.
    pub(crate) fn new(alloc: Global) -> Self
        ensures { result ≡ [] }
    {
        Holders {
            words: Vec::new(alloc),
            before: Vec::new(alloc),
            count: 0,
        }
    }

    /// How many words the set has.
    pub(crate) fn len(&self) -> u32
        ensures long { result ≡ length self.now }
        ensures few { result ≤ 67108864 }
    {
        self.words.len() as u32
    }

    /// Word k of the set: bit i says whether it has 64 k + i.
    pub(crate) fn word(&self, k: u32) -> u64
        ensures { (i : ℕ) → i < 64 → (bit_at result i == 1) ≡ in_set self.now (64 * k + i) }
    {
        word_of(self.words.as_slice(), k)
    }

    /// How many numbers of the set are lower than this one.
    pub(crate) fn place(&self, number: u32) -> usize
        ensures { result ≡ count_below (in_set self.now) number }
    {
        let k = number as usize / 64;
        if k >= self.words.len() {
            return self.count;
        }
        self.before[k] as usize + lower_in(self.words[k], number) as usize
    }

    /// Lets the set have room for a number.
    pub(crate) fn make_room(&mut self, number: u32) -> Result<(), Memory>
        ensures room { OnOk result (number / 64 < length self.new) }
        ensures same { (q : ℕ) → in_set self.new q ≡ in_set self.old q }
    {
        let n = number as usize / 64 + 1;
        if n <= self.words.len() {
            return Ok(());
        }
        let more = n - self.words.len();
        self.words.reserve(more)?;
        self.before.reserve(more)?;
        lengthen(&mut self.words, n);
        lengthen_counts(&mut self.before, n, self.count as u32);
        Ok(())
    }

    /// Puts a number into the set. The counts of all words behind it rise.
    pub(crate) fn insert(&mut self, number: u32)
        requires { number / 64 < length self.old }
        ensures { (q : ℕ) → in_set self.new q ≡ (q == number || in_set self.old q) }
    {
        if has_bit(self.words.as_slice(), number) {
            return;
        }
        set_bit(&mut self.words, number);
        raise(&mut self.before, number as usize / 64 + 1);
        self.count += 1;
    }

    /// Takes a number out of the set, where it is there. The counts of all words behind it fall.
    pub(crate) fn remove(&mut self, number: u32)
        ensures { (q : ℕ) → in_set self.new q ≡ (in_set self.old q && not (q == number)) }
    {
        if !has_bit(self.words.as_slice(), number) {
            return;
        }
        clear_bit(&mut self.words, number);
        lower(&mut self.before, number as usize / 64 + 1);
        self.count -= 1;
    }

    /// The same set once more.
    pub(crate) fn copy(&self) -> Result<Self, Memory>
        ensures { IfOk result (λ same. same ≡ self.now) }
    {
        let alloc = *self.words.allocator();
        Ok(Holders {
            words: Vec::from_slice(alloc, self.words.as_slice())?,
            before: Vec::from_slice(alloc, self.before.as_slice())?,
            count: self.count,
        })
    }
}
