//! Members of an object, one after another, at the end of a vector.
ghost use Rattle.std.specs.Prelude.{◌≡◌, ◌++◌, ◌∷◌, [], List, ℕ, ◌≤◌, ◌+◌, length, decimal, IsTrue, Some, option_map};
ghost use Rattle.json.specs.Print.{quoted};
ghost use Rattle.pm_model.specs.Name.{is_name};
ghost use Rattle.pm_model.specs.Object.{whole, whole_if, texted};
ghost use Rattle.pm_model.specs.Text.{said};
ghost use Rattle.pm_model.specs.Words.{key_text};
ghost use Rattle.pm_print.specs.Growth.{Adds, Appended, decimal_most, key_most, number_most, quoted_most, text_most};
ghost use Rattle.pm_print.specs.Members.{keyed, leading, trailing};

use itoa::Buffer;
use pm_model::{Key, Memory, Name, Word};

/// Appends the bytes.
pub(crate) fn put(out: &mut Vec<u8>, text: &[u8]) -> Result<(), Memory>
    ensures { Appended out.old out.new text.now (length text.now) result }
{
    out.extend_from_slice(text)?;
    Ok(())
}

/// Appends the number.
pub(crate) fn add_decimal(out: &mut Vec<u8>, n: u64) -> Result<(), Memory>
    ensures { Adds out.old out.new (decimal n) result }
{
    let mut buffer = Buffer::new();
    put(out, buffer.format(n).as_bytes())
}

/// Appends the number, which has 20 digits at most.
#[tactic(auto, using(crate::proofs::Texts::decimal_size))]
pub(crate) fn put_decimal(out: &mut Vec<u8>, n: u64) -> Result<(), Memory>
    ensures { Appended out.old out.new (decimal n) decimal_most result }
{
    add_decimal(out, n)
}

/// Appends the text between quotes, as it is.
pub(crate) fn add_between_quotes(out: &mut Vec<u8>, text: &[u8]) -> Result<(), Memory>
    ensures { Adds out.old out.new (34 ∷ (text.now ++ 34 ∷ [])) result }
{
    put(out, b"\"")?;
    put(out, text)?;
    put(out, b"\"")
}

/// Appends the text in quotes, which has the form of a name and needs no escape.
pub(crate) fn add_quoted(out: &mut Vec<u8>, text: &[u8]) -> Result<(), Memory>
    requires { IsTrue (is_name text.now) }
    ensures { Adds out.old out.new (quoted text.now) result }
{
    add_between_quotes(out, text)
}

/// Appends it, which is as long as a name at most.
#[tactic(auto, using(crate::proofs::Texts::quoted_size))]
pub(crate) fn put_quoted(out: &mut Vec<u8>, text: &[u8]) -> Result<(), Memory>
    requires { IsTrue (is_name text.now) }
    ensures { Appended out.old out.new (quoted text.now) quoted_most result }
{
    add_quoted(out, text)
}

/// Appends the key and its colon.
#[tactic(auto, using(crate::proofs::Texts::key_name), unfolding(crate::specs::Members::keyed))]
pub(crate) fn add_key(out: &mut Vec<u8>, key: Key) -> Result<(), Memory>
    ensures { Adds out.old out.new (keyed (key_text key)) result }
{
    add_quoted(out, key.text().as_bytes())?;
    put(out, b":")
}

/// Appends them, the key being as long as a name at most.
#[tactic(auto, using(crate::proofs::Texts::key_size))]
pub(crate) fn put_key(out: &mut Vec<u8>, key: Key) -> Result<(), Memory>
    ensures { Appended out.old out.new (keyed (key_text key)) key_most result }
{
    add_key(out, key)
}

/// Appends a member that is a number, and a comma.
#[tactic(auto, unfolding(crate::specs::Members::trailing))]
pub(crate) fn put_number(out: &mut Vec<u8>, key: Key, n: u64) -> Result<(), Memory>
    ensures { Appended out.old out.new (trailing (key_text key) (whole n)) number_most result }
{
    put_key(out, key)?;
    put_decimal(out, n)?;
    put(out, b",")
}

/// Appends a member that is a number, and a comma, where there is one.
#[tactic(auto, unfolding(crate::specs::Members::trailing))]
pub(crate) fn put_number_if(out: &mut Vec<u8>, key: Key, n: Option<u64>) -> Result<(), Memory>
    ensures { Appended out.old out.new (trailing (key_text key) (whole_if n)) number_most result }
{
    match n {
        None => Ok(()),
        Some(n) => put_number(out, key, n),
    }
}

/// Appends a member that is a text in the form of a name, and a comma.
#[tactic(auto, unfolding(crate::specs::Members::trailing))]
fn put_text(out: &mut Vec<u8>, key: Key, text: &[u8]) -> Result<(), Memory>
    requires { IsTrue (is_name text.now) }
    ensures { Appended out.old out.new (trailing (key_text key) (texted text.now)) text_most result }
{
    put_key(out, key)?;
    put_quoted(out, text)?;
    put(out, b",")
}

/// Appends a member that is a fixed text, and a comma.
#[tactic(auto, using(crate::proofs::Texts::word_name))]
pub(crate) fn put_word(out: &mut Vec<u8>, key: Key, word: Word) -> Result<(), Memory>
    ensures { Appended out.old out.new (trailing (key_text key) (said word)) text_most result }
{
    put_text(out, key, word.text().as_bytes())
}

/// Appends a member that is the text of a key, and a comma.
#[tactic(auto, using(crate::proofs::Texts::key_name))]
pub(crate) fn put_key_text(out: &mut Vec<u8>, key: Key, named: Key) -> Result<(), Memory>
    ensures { Appended out.old out.new (trailing (key_text key) (texted (key_text named))) text_most result }
{
    put_text(out, key, named.text().as_bytes())
}

/// Appends a member that is a name, and a comma.
pub(crate) fn put_name(out: &mut Vec<u8>, key: Key, name: &Name) -> Result<(), Memory>
    ensures { Appended out.old out.new (trailing (key_text key) (texted name.now)) text_most result }
{
    put_text(out, key, name.bytes())
}

/// Appends a comma and a member that is a fixed text.
#[tactic(auto, using(crate::proofs::Texts::word_name), unfolding(crate::specs::Members::leading))]
pub(crate) fn put_word_behind(out: &mut Vec<u8>, key: Key, word: Word) -> Result<(), Memory>
    ensures { Appended out.old out.new (leading (key_text key) (said word)) text_most result }
{
    put(out, b",")?;
    put_key(out, key)?;
    put_quoted(out, word.text().as_bytes())
}
