//! The lists of a reply's line, item by item.
ghost use Rattle.std.specs.Prelude.{Option, ◌≡◌, IfOk, option_and_then};
ghost use Rattle.std.specs.Str.Parse.{without_leading_plus};
ghost use Rattle.serde_json.specs.Data.{Data};
ghost use Rattle.serde_json.specs.Find.{as_array};
ghost use Rattle.serde_json.specs.View.{view, items_view};
ghost use Rattle.pm_model.specs.Forms.{list_of, looking, whole_form};
ghost use Rattle.pm_replies.specs.Replied.{change_form, count_form, if_set, list_at, name_in, pair_form, rights_form, rights_in};

use crate::members::name;
use crate::texts::{TextCount, TextPair};
use pm_model::{Changed, ItemList, Key, Memory, Name, RightWord, Rights};
use serde_json::Value;
use std::alloc::Global;

/// An item of a reply's list.
pub(crate) trait Item: Sized {
    /// What a value reads as, where it has the item's form.
    ghost form: { Data → Option Self };

    /// What the value reads as.
    fn read(value: &Value) -> Option<Self>
        ensures { result ≡ form (view value.now) };
}

impl Item for TextPair {
    ghost form = { pair_form };

    fn read(value: &Value) -> Option<TextPair> {
        pair(value)
    }
}

impl Item for TextCount {
    ghost form = { count_form };

    fn read(value: &Value) -> Option<TextCount> {
        count(value)
    }
}

impl Item for Changed {
    ghost form = { change_form };

    fn read(value: &Value) -> Option<Changed> {
        change(value)
    }
}

// A set of rights by its digits. Some sets have other digits beside those that a reply shows: capital ones, and zeros or a
// plus before them.
fn set(digits: &str) -> Option<Rights>
    ensures { result ≡ if_set (without_leading_plus digits.now) }
{
    match RightWord::from_str_radix(digits, 16) {
        Ok(set) => Some(Rights(set)),
        Err(_) => None,
    }
}

fn rights(value: &Value) -> Option<Rights>
    ensures { result ≡ rights_form (view value.now) }
{
    value.as_str().and_then(set)
}

fn name_in(i: usize, value: &Value) -> Option<Name>
    ensures { result ≡ name_in i (view value.now) }
{
    value.get(i).and_then(name)
}

fn rights_in(i: usize, value: &Value) -> Option<Rights>
    ensures { result ≡ rights_in i (view value.now) }
{
    value.get(i).and_then(rights)
}

fn pair(value: &Value) -> Option<TextPair>
    ensures { result ≡ pair_form (view value.now) }
{
    let name = name_in(0, value)?;
    let rights = rights_in(1, value)?;
    Some(TextPair { name, rights })
}

fn count(value: &Value) -> Option<TextCount>
    ensures { result ≡ count_form (view value.now) }
{
    let name = name_in(0, value)?;
    let count = value.get(1usize).and_then(Value::as_u64)?;
    Some(TextCount { name, count })
}

fn change(value: &Value) -> Option<Changed>
    ensures { result ≡ change_form (view value.now) }
{
    let name = name_in(0, value)?;
    let old = rights_in(1, value)?;
    let new = rights_in(2, value)?;
    Some(Changed { name, old, new })
}

fn list_of<T: Item + Drop>(alloc: Global, values: &[Value]) -> Result<Option<ItemList<T>>, Memory>
    ensures { IfOk result (λ o. o ≡ list_of T.form (items_view values.now)) }
{
    let mut list = ItemList::new(alloc);
    for value in values {
        match T::read(value) {
            None => return Ok(None),
            Some(item) => list.push(item)?,
        }
    }
    Ok(Some(list))
}

/// The list at the key.
pub(crate) fn list_at<T: Item + Drop>(
    alloc: Global,
    key: Key,
    value: &Value,
) -> Result<Option<ItemList<T>>, Memory>
    ensures { IfOk result (λ o. o ≡ list_at (looking (view value.now)) key T.form) }
{
    match value.get(key.text()).and_then(Value::as_array) {
        None => Ok(None),
        Some(values) => list_of(alloc, values.as_slice()),
    }
}
