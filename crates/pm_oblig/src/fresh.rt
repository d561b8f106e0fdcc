//! The name of what an action makes and gives no other name.

ghost use Rattle.std.specs.Prelude.{◌≡◌, ◌++◌, ◌≤◌, ◌+◌, decimal};
ghost use Rattle.arrayvec.specs.ArrayString.{array_string_len};
ghost use Rattle.pm_model.specs.Responses.{fresh_name};

use arrayvec::ArrayString;
use itoa::Buffer;
use pm_model::{Name, Place};

/// Appends the number, which has at most 20 digits.
#[tactic(auto, using(crate::proofs::FreshNames::decimal_short))]
fn put_decimal(text: &mut ArrayString<64>, n: u64)
    requires { array_string_len text.old + 20 ≤ 64 }
    ensures bytes { text.new.bytes ≡ text.old.bytes ++ decimal n }
    ensures room { array_string_len text.new ≤ array_string_len text.old + 20 }
{
    let mut buffer = Buffer::new();
    text.push_str(buffer.format(n));
}

/// The name that is new at this place and this version, of what an action makes and gives no other name. It takes no
/// memory.
#[tactic(auto, using(crate::proofs::FreshNames::fresh_is_name))]
pub fn fresh_name(place: Place, version: u64) -> Name
    ensures { result ≡ fresh_name place version }
{
    let mut text: ArrayString<64> = ArrayString::new();
    text.push_str("x");
    put_decimal(&mut text, version);
    text.push_str(".");
    put_decimal(&mut text, u64::from(place.obligation));
    text.push_str(".");
    put_decimal(&mut text, u64::from(place.action));
    Name::new(text.as_str().as_bytes()).unwrap()
}
