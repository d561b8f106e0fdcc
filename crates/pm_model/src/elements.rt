//! What a policy is made of: elements, with their numbers, kinds and names.

ghost use Rattle.std.specs.Prelude.{◌≡◌, ℕ, ◌<◌, ◌+◌, ◌*◌, ◌==◌};
ghost use Rattle.std.specs.Int.{bit_at};

use crate::names::Name;
use std::marker::Model;

/// The number of an element. Contracts see a number.
#[derive(Clone, Copy, Debug, PartialEq, Eq)]
pub struct ElementId(pub u32);

impl Model for ElementId {
    ghost use Rattle.std.specs.Prelude.{ℕ};

    ghost Value = { ℕ };

    ghost view = { λ e. e.0 };

    ghost inverse = { λ n. record { 0 = n } };
}

impl ElementId {
    /// The number itself.
    pub fn number(self) -> u32
        ensures { result ≡ self }
    {
        self.0
    }

    /// The set of this number alone, as far as it tells of the 64 numbers from 64 k on: bit i is the
    /// number 64 k + i.
    #[tactic(auto, using(crate::proofs::Bits::bit_here, crate::proofs::Bits::bit_elsewhere))]
    pub fn bit_in(self, k: u32) -> u64
        ensures { (i : ℕ) → i < 64 → (bit_at result i == 1) ≡ (self == 64 * k + i) }
    {
        if self.0 / 64 == k {
            1 << (self.0 % 64)
        } else {
            0
        }
    }
}

/// What an element is: a user, a user attribute, an object, an object attribute or a policy class.
/// The standard's policy elements, with its names for them shortened.
#[derive(Clone, Copy, Debug, PartialEq, Eq)]
pub enum Kind {
    User,
    Ua,
    Object,
    Oa,
    Pc,
}

/// A policy element: its number, which no other live element has, its kind and its name.
#[derive(Drop)]
pub struct Element {
    pub number: ElementId,
    pub kind: Kind,
    pub name: Name,
}
