//! A reply that was read against the line that it was read from.
ghost use Rattle.std.specs.Prelude.{◌≡◌, ◌++◌, ◌∷◌, [], true, false, IfOk};
ghost use Rattle.serde_json.specs.View.{view};
ghost use Rattle.pm_model.specs.Forms.{looking};
ghost use Rattle.pm_replies.specs.ByNames.{IsTextOf};
ghost use Rattle.pm_replies.specs.Replied.{Confirms};

use crate::numbers::with_numbers;
use crate::read::replied;
use crate::texts::ReplyLine;
use pm_model::Memory;
use pm_print::print_reply;
use serde_json::Value;
use std::alloc::Global;

// Whether what was printed is the line and its line feed.
fn is_line(printed: &[u8], line: &[u8]) -> bool
    ensures yes { result ≡ true → printed.now ≡ line.now ++ 10 ∷ [] }
    ensures no { result ≡ false → printed.now ≡ line.now ++ 10 ∷ [] → ⊥ }
{
    match printed.strip_suffix(b"\n") {
        None => false,
        Some(text) => text == line,
    }
}

// Whether the line is the text of what was read from it.
fn is_said(alloc: Global, said: &ReplyLine, line: &[u8]) -> Result<bool, Memory>
    ensures yes { IfOk result (λ same. same ≡ true → IsTextOf line.now said.now) }
    ensures no { IfOk result (λ same. same ≡ false → IsTextOf line.now said.now → ⊥) }
{
    let numbered = with_numbers(alloc, &said.text)?;
    let mut printed = Vec::new(alloc);
    print_reply(
        said.id,
        said.version,
        &numbered.reply,
        &numbered.names,
        &mut printed,
    )?;
    Ok(is_line(printed.as_slice(), line))
}

/// The reply that the value of the line says, where the line is its text.
pub(crate) fn confirmed(
    alloc: Global,
    value: &Value,
    line: &[u8],
) -> Result<Option<ReplyLine>, Memory>
    ensures { IfOk result (λ o. Confirms line.now (looking (view value.now)) o) }
{
    let Some(said) = replied(alloc, value)? else {
        return Ok(None);
    };
    if is_said(alloc, &said, line)? {
        Ok(Some(said))
    } else {
        Ok(None)
    }
}
