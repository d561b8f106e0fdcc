//! Bytes and quoted texts, at the end of a vector.
ghost use Rattle.std.specs.Prelude.{◌≡◌, ◌++◌, ◌∷◌, [], decimal, true};
ghost use Rattle.std.specs.List.{list_all};
ghost use Rattle.json.specs.Print.{quoted};
ghost use Rattle.pm_model.specs.Name.{is_name_byte};
ghost use Rattle.pm_print.specs.Growth.{Adds};

use itoa::Buffer;
use pm_model::Memory;

/// Appends the bytes.
pub(crate) fn put(out: &mut Vec<u8>, text: &[u8]) -> Result<(), Memory>
    ensures { Adds out.old out.new text.now result }
{
    out.extend_from_slice(text)?;
    Ok(())
}

/// Appends the number.
pub(crate) fn add_decimal(out: &mut Vec<u8>, n: u64) -> Result<(), Memory>
    ensures { Adds out.old out.new (decimal n) result }
{
    let mut buffer = Buffer::new();
    put(out, buffer.format(n).as_bytes())
}

fn add_between_quotes(out: &mut Vec<u8>, text: &[u8]) -> Result<(), Memory>
    ensures { Adds out.old out.new (34 ∷ (text.now ++ 34 ∷ [])) result }
{
    put(out, b"\"")?;
    put(out, text)?;
    put(out, b"\"")
}

/// Appends the text in quotes, which has the bytes of names alone and so needs no escape.
pub(crate) fn add_quoted(out: &mut Vec<u8>, text: &[u8]) -> Result<(), Memory>
    requires { list_all is_name_byte text.now ≡ true }
    ensures { Adds out.old out.new (quoted text.now) result }
{
    add_between_quotes(out, text)
}
