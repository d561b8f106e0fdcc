//! Keys of a worker's connections, a bit each.

ghost use Rattle.std.specs.Prelude.{◌≡◌, ℕ, ◌↔◌, IsTrue};

use std::marker::Model;

// How many connections a worker serves at once.
pub(crate) const MOST: usize = 1024;

const WORDS: usize = MOST / 64;

/// A set of keys below 1,024.
#[derive(Drop)]
pub(crate) struct Keys {
    words: [u64; WORDS],
}

impl Model for Keys {
    ghost use Rattle.pm_server.specs.KeySets.{KeySet};

    ghost Value = { KeySet };

    ghost view = { λ k. record { words = k.words } };
}

impl Keys {
    ghost use Rattle.pm_server.specs.KeySets.{HasKey, HasAdded, HasTaken};

    pub(crate) fn none() -> Keys
        ensures { (k : ℕ) → ¬ HasKey result k }
    {
        Keys { words: [0; WORDS] }
    }

    /// Whether there is none.
    pub(crate) fn is_empty(&self) -> bool
        ensures { IsTrue result → (k : ℕ) → ¬ HasKey self.now k }
    {
        for place in 0..WORDS {
            if self.words[place] != 0 {
                return false;
            }
        }
        true
    }

    /// Adds the key; one that is no connection's changes nothing.
    pub(crate) fn add(&mut self, key: usize)
        ensures { HasAdded self.old self.new key }
    {
        if key < MOST {
            self.words[key / 64] |= 1 << (key % 64);
        }
    }

    pub(crate) fn has(&self, key: usize) -> bool
        ensures { IsTrue result ↔ HasKey self.now key }
    {
        key < MOST && self.words[key / 64] >> (key % 64) & 1 == 1
    }

    /// Takes the lowest key.
    pub(crate) fn take_first(&mut self) -> Option<usize>
        ensures { HasTaken self.old self.new result }
    {
        for place in 0..WORDS {
            let word = self.words[place];
            if word != 0 {
                let bit = word.trailing_zeros();
                self.words[place] = word & !(1 << bit);
                return Some(64 * place + bit as usize);
            }
        }
        None
    }
}
