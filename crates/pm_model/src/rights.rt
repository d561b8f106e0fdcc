//! Sets of rights, and what gives them.

ghost use Rattle.std.specs.Prelude.{◌≡◌, ◌<◌, ◌==◌, ◌^◌, bit_or};
ghost use Rattle.pm_model.specs.RightSet.{has_right, is_access_right, right_bits};

use crate::elements::ElementId;
use crate::grants::GrantList;
use std::marker::Model;

/// The number that a set of rights is.
pub type RightWord = u64;

/// A set of access and administrative rights, each a bit of the number that contracts see.
#[derive(Clone, Copy, Debug, PartialEq, Eq)]
pub struct Rights(pub RightWord);

impl Model for Rights {
    ghost use Rattle.std.specs.Prelude.{ℕ};

    ghost Value = { ℕ };

    ghost view = { λ r. r.0 };

    ghost inverse = { λ n. record { 0 = n } };
}

impl Rights {
    /// Whether the right of this bit is in the set.
    pub fn has(self, bit: u8) -> bool
        requires { bit < right_bits }
        ensures { result ≡ has_right self bit }
    {
        (self.0 >> bit) & 1 == 1
    }

    /// The set with every right of either.
    pub fn union(self, other: Rights) -> Rights
        ensures { result ≡ bit_or self other }
    {
        Rights(self.0 | other.0)
    }

    /// The set of one right.
    pub fn one(bit: u8) -> Rights
        requires { bit < right_bits }
        ensures { result ≡ 2 ^ bit }
    {
        Rights(1 << bit)
    }

    /// Whether no right is in the set.
    pub fn is_empty(self) -> bool
        ensures { result ≡ (self == 0) }
    {
        self.0 == 0
    }
}

/// Whether an access may ask for the right: whether it is no administrative one.
pub fn is_access_right(bit: u8) -> bool
    ensures { result ≡ is_access_right bit }
{
    bit < 2 || 17 <= bit
}

/// An association: it gives the users in a user attribute these rights on what is in `at`.
#[derive(Clone, Copy, Debug, PartialEq, Eq)]
pub struct Association {
    pub ua: ElementId,
    pub rights: Rights,
    pub at: ElementId,
}

/// What one association gives: these rights on what is in `at`.
#[derive(Clone, Copy, Debug, PartialEq, Eq)]
pub struct Grant {
    pub rights: Rights,
    pub at: ElementId,
}

/// The associations of one user attribute, in order of creation.
pub struct Grantee {
    pub ua: ElementId,
    pub grants: GrantList,
}

impl Drop for Grantee {
    fn drop(self) {
        let Grantee { ua: _, grants: _ } = self;
    }
}
