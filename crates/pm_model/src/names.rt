//! Names of elements, rights and prohibitions: 1 to 64 bytes of a small alphabet.

ghost use Rattle.std.specs.Prelude.{◌≡◌, ◌↔◌, ◌≤◌, IsTrue, IsSome, IfSome, length, replicate, ◌-◌, ◌++◌, ◌&&◌, nat_lt, nat_le};
ghost use Rattle.std.specs.List.{list_all};
ghost use Rattle.pm_model.specs.Name.{is_name, is_name_byte, longest_name};

use std::hash::{Hash, Hasher};
use std::marker::Model;

/// How many bytes a name has at most.
const LONGEST: usize = 64;

/// A name of 1 to 64 ASCII letters, digits, `_`, `-` and `.`. It takes no memory of its own and is
/// copied. Contracts see the list of its bytes.
pub struct Name {
    len: u8,
    bytes: [u8; LONGEST],
}

impl Model for Name {
    ghost use Rattle.std.specs.Prelude.{List, ℕ, take};

    ghost Value = { List ℕ };

    ghost use Rattle.pm_model.specs.NameFields.{IsPadded, fields_of, fields_of-view};

    ghost view = { λ n. take n.len n.bytes };

    ghost invariant = { IsPadded };

    ghost inverse = { fields_of };

    ghost inverse_ok = { fields_of-view };
}

impl Clone for Name {
    ghost use Rattle.std.specs.Prelude.{◌≡◌};

    ghost is_clone = { λ n same. same ≡ n };

    fn clone(&self) -> Result<Name, std::alloc::AllocError> {
        Ok(*self)
    }
}

impl Copy for Name {}

impl PartialEq for Name {
    ghost use Rattle.std.specs.Prelude.{bytes_eq};
    ghost use Rattle.std.proofs.Common.{rules};
    ghost use Rattle.std.specs.Cmp.Rules.{comparing};

    ghost eq = { bytes_eq };

    ghost laws = { Prim.search (comparing, rules) };

    fn eq(&self, other: &Name) -> bool {
        self.bytes() == other.bytes()
    }
}

impl Eq for Name {
    ghost use Rattle.std.proofs.Common.{rules};
    ghost use Rattle.std.specs.Cmp.Rules.{comparing};

    ghost laws = { Prim.search (comparing, rules) };
}

impl Hash for Name {
    ghost use Rattle.std.specs.Prelude.{[], ◌∷◌};
    ghost use Rattle.std.proofs.Common.{ap};
    ghost use Rattle.std.specs.Cmp.Lexicographic.{bytes_decides};

    ghost hash_input = { λ n. n ∷ [] };

    ghost respects_eq = { λ x y h. ap (λ n. n ∷ []) ((bytes_decides x y).0 h) };

    // All bytes in one write, where those of a slice would be written one by one.
    fn hash<H: Hasher>(&self, state: &mut H) {
        state.write(self.bytes());
    }
}

fn is_name_byte(byte: u8) -> bool
    ensures { result ≡ is_name_byte byte }
{
    matches!(byte, b'a'..=b'z' | b'A'..=b'Z' | b'0'..=b'9' | b'_' | b'-' | b'.')
}

fn all_name_bytes(bytes: &[u8]) -> bool
    ensures { result ≡ list_all is_name_byte bytes.now }
{
    bytes.iter().all(|byte| is_name_byte(*byte))
}

fn has_name_length(len: usize) -> bool
    ensures { result ≡ (nat_lt 0 len && nat_le len longest_name) }
{
    0 < len && len <= LONGEST
}

fn is_name(bytes: &[u8]) -> bool
    ensures { result ≡ is_name bytes.now }
{
    has_name_length(bytes.len()) && all_name_bytes(bytes)
}

// The bytes, and then zeros: two names with the same bytes have the same fields.
fn padded(bytes: &[u8]) -> [u8; LONGEST]
    requires { length bytes.now ≤ longest_name }
    ensures { result ≡ bytes.now ++ replicate (longest_name - length bytes.now) 0 }
{
    let mut held = [0u8; LONGEST];
    for (i, byte) in bytes.iter().enumerate() {
        held[i] = *byte;
    }
    held
}

impl Name {
    /// The name of these bytes; None exactly where they have no name's form.
    pub fn new(bytes: &[u8]) -> Option<Name>
        ensures some { IfSome result (λ n. n ≡ bytes.now) }
        ensures exactly { IsSome result ↔ IsTrue (is_name bytes.now) }
    {
        if !is_name(bytes) {
            return None;
        }
        Some(Name {
            bytes: padded(bytes),
            len: bytes.len() as u8,
        })
    }

    /// The bytes of the name.
    pub fn bytes(&self) -> &[u8]
        ensures bytes { result.now ≡ self.now }
        ensures named { IsTrue (is_name self.now) }
    {
        &self.bytes[..self.len as usize]
    }
}
