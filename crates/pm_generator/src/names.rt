//! The names in a generated policy.

ghost use Rattle.std.specs.Prelude.{◌≡◌, ◌<◌, ◌≤◌, ◌∷◌, ◌++◌, ◌/◌, ◌-◌, ◌==◌, if◌then◌else◌, codes, decimal};
ghost use Rattle.pm_generator.specs.Generated.{class_name, group_name, folder_name, user_name, object_name, container};

use arrayvec::ArrayString;
use itoa::Buffer;
use pm_model::Name;

/// A small letter, and the number behind it.
#[tactic(auto, using(crate::proofs::Named::numbered_is_name))]
fn numbered(letter: char, number: u8) -> Name
    requires { (97 ≤ letter) × (letter ≤ 122) }
    ensures { result ≡ letter ∷ decimal number }
{
    let mut text: ArrayString<4> = ArrayString::new();
    let mut digits = Buffer::new();
    text.push(letter);
    text.push_str(digits.format(number));
    Name::new(text.as_str().as_bytes()).unwrap()
}

/// The one class.
pub(crate) fn class_name() -> Name
    ensures { result ≡ class_name }
{
    Name::new(b"c0").unwrap()
}

/// The one right.
pub(crate) fn read() -> Name
    ensures { result ≡ codes "read" }
{
    Name::new(b"read").unwrap()
}

pub(crate) fn group_name(i: u8) -> Name
    ensures { result ≡ group_name i }
{
    numbered('g', i)
}

pub(crate) fn folder_name(i: u8) -> Name
    ensures { result ≡ folder_name i }
{
    numbered('d', i)
}

pub(crate) fn user_name(i: u8) -> Name
    ensures { result ≡ user_name i }
{
    numbered('u', i)
}

pub(crate) fn object_name(i: u8) -> Name
    ensures { result ≡ object_name i }
{
    numbered('o', i)
}

/// What a group is made in.
pub(crate) fn group_container(i: u8) -> Name
    ensures { result ≡ container group_name i }
{
    if i == 0 {
        class_name()
    } else {
        group_name((i - 1) / 2)
    }
}

/// What a folder is made in.
pub(crate) fn folder_container(i: u8) -> Name
    ensures { result ≡ container folder_name i }
{
    if i == 0 {
        class_name()
    } else {
        folder_name((i - 1) / 2)
    }
}
