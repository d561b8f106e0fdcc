//! What stands at the keys of a reply's line.
ghost use Rattle.std.specs.Prelude.{◌≡◌, option_map};
ghost use Rattle.serde_json.specs.View.{view};
ghost use Rattle.pm_model.specs.Forms.{looking, name_form, short_form};
ghost use Rattle.pm_replies.specs.Replied.{name_at, short_at, text_at, whole_at};

use pm_model::{Key, Name};
use serde_json::Value;

/// A text that is a name.
pub(crate) fn name(value: &Value) -> Option<Name>
    ensures { result ≡ name_form (view value.now) }
{
    let text = value.as_str()?;
    Name::new(text.as_bytes())
}

/// A whole number of 32 bits.
fn short(value: &Value) -> Option<u32>
    ensures { result ≡ short_form (view value.now) }
{
    let number = value.as_u64()?;
    u32::try_from(number).ok()
}

/// The text at the key.
pub(crate) fn text_at<'a>(key: Key, value: &'a Value) -> Option<&'a str>
    ensures { option_map (λ s. s.now) result ≡ text_at (looking (view value.now)) key }
{
    value.get(key.text()).and_then(Value::as_str)
}

/// The name at the key.
pub(crate) fn name_at(key: Key, value: &Value) -> Option<Name>
    ensures { result ≡ name_at (looking (view value.now)) key }
{
    value.get(key.text()).and_then(name)
}

/// The number of 32 bits at the key.
pub(crate) fn short_at(key: Key, value: &Value) -> Option<u32>
    ensures { result ≡ short_at (looking (view value.now)) key }
{
    value.get(key.text()).and_then(short)
}

/// The number of 64 bits at the key.
pub(crate) fn whole_at(key: Key, value: &Value) -> Option<u64>
    ensures { result ≡ whole_at (looking (view value.now)) key }
{
    value.get(key.text()).and_then(Value::as_u64)
}
