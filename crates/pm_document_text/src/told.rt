//! Values in JSON, and what is made of them: lists, and members of an object.
ghost use Rattle.std.specs.Prelude.{◌≡◌, ◌++◌, ◌∷◌, [], codes, false, map, Some, true};
ghost use Rattle.std.specs.List.{list_all};
ghost use Rattle.serde_json.specs.Data.{Data};
ghost use Rattle.serde_json.specs.Written.{comma_if, compact_text};
ghost use Rattle.pm_model.specs.Name.{is_name_byte};
ghost use Rattle.pm_model.specs.Object.{listed};
ghost use Rattle.pm_model.specs.Words.{key_text};
ghost use Rattle.pm_print.specs.Actions.{only};
ghost use Rattle.pm_print.specs.Growth.{Adds};
ghost use Rattle.pm_print.specs.Members.{item_text, items_front, keyed, leading};

use crate::put::{add_quoted, put};
use pm_model::{ItemList, Key, Memory};

/// What is told as a JSON value.
pub(crate) trait Told {
    /// The value that it is told as.
    ghost told: { Self → Data };

    /// Appends the compact text of the value. On Memory the front that stood stays.
    fn add(&self, out: &mut Vec<u8>) -> Result<(), Memory>
        ensures { Adds out.old out.new (compact_text (told self.now)) result };
}

// ---- lists

// Appends a comma, where something stands before.
fn add_comma_if(out: &mut Vec<u8>, later: bool) -> Result<(), Memory>
    ensures { Adds out.old out.new (comma_if later) result }
{
    if later {
        return put(out, b",");
    }
    Ok(())
}

// Appends the item, with a comma in front where something stands before.
fn add_item<T: Told>(out: &mut Vec<u8>, later: bool, item: &T) -> Result<(), Memory>
    ensures { Adds out.old out.new (item_text later (T.told item.now)) result }
{
    add_comma_if(out, later)?;
    item.add(out)
}

// Appends the items, with commas between them.
fn add_items<T: Told>(out: &mut Vec<u8>, items: &[T]) -> Result<(), Memory>
    ensures { Adds out.old out.new (items_front false (map T.told items.now)) result }
{
    for (i, item) in items.iter().enumerate() {
        add_item(out, i > 0, item)?;
    }
    Ok(())
}

// Appends the items in their brackets.
fn add_bracketed<T: Told>(out: &mut Vec<u8>, items: &[T]) -> Result<(), Memory>
    ensures { Adds out.old out.new (91 ∷ (items_front false (map T.told items.now) ++ 93 ∷ [])) result }
{
    put(out, b"[")?;
    add_items(out, items)?;
    put(out, b"]")
}

fn add_list<T: Told>(out: &mut Vec<u8>, items: &[T]) -> Result<(), Memory>
    ensures { Adds out.old out.new (compact_text (listed (map T.told items.now))) result }
{
    add_bracketed(out, items)
}

impl<T: Told> Told for ItemList<T> {
    ghost use Rattle.std.specs.Prelude.{map};
    ghost use Rattle.pm_model.specs.Object.{listed};

    ghost told = { λ items. listed (map T.told items) };

    fn add(&self, out: &mut Vec<u8>) -> Result<(), Memory> {
        add_list(out, self.as_slice())
    }
}

// ---- lists of two and of three, whose items differ

fn add_two<A: Told, B: Told>(out: &mut Vec<u8>, first: &A, second: &B) -> Result<(), Memory>
    ensures { Adds out.old out.new (items_front false (A.told first.now ∷ B.told second.now ∷ [])) result }
{
    add_item(out, false, first)?;
    add_item(out, true, second)
}

fn add_bracketed_pair<A: Told, B: Told>(
    out: &mut Vec<u8>,
    first: &A,
    second: &B,
) -> Result<(), Memory>
    ensures { Adds out.old out.new (91 ∷ (items_front false (A.told first.now ∷ B.told second.now ∷ []) ++ 93 ∷ [])) result }
{
    put(out, b"[")?;
    add_two(out, first, second)?;
    put(out, b"]")
}

/// Appends the list of the two.
pub(crate) fn add_pair<A: Told, B: Told>(
    out: &mut Vec<u8>,
    first: &A,
    second: &B,
) -> Result<(), Memory>
    ensures { Adds out.old out.new (compact_text (listed (A.told first.now ∷ B.told second.now ∷ []))) result }
{
    add_bracketed_pair(out, first, second)
}

fn add_three<A: Told, B: Told, C: Told>(
    out: &mut Vec<u8>,
    first: &A,
    second: &B,
    third: &C,
) -> Result<(), Memory>
    ensures { Adds out.old out.new (items_front false (A.told first.now ∷ B.told second.now ∷ C.told third.now ∷ [])) result }
{
    add_item(out, false, first)?;
    add_item(out, true, second)?;
    add_item(out, true, third)
}

fn add_bracketed_triple<A: Told, B: Told, C: Told>(
    out: &mut Vec<u8>,
    first: &A,
    second: &B,
    third: &C,
) -> Result<(), Memory>
    ensures { Adds out.old out.new (91 ∷ (items_front false (A.told first.now ∷ B.told second.now ∷ C.told third.now ∷ []) ++ 93 ∷ [])) result }
{
    put(out, b"[")?;
    add_three(out, first, second, third)?;
    put(out, b"]")
}

/// Appends the list of the three.
pub(crate) fn add_triple<A: Told, B: Told, C: Told>(
    out: &mut Vec<u8>,
    first: &A,
    second: &B,
    third: &C,
) -> Result<(), Memory>
    ensures { Adds out.old out.new (compact_text (listed (A.told first.now ∷ B.told second.now ∷ C.told third.now ∷ []))) result }
{
    add_bracketed_triple(out, first, second, third)
}

// ---- members

/// Appends the key, which needs no escape, and its colon.
#[tactic(auto, unfolding(pm_print::specs::Members::keyed))]
pub(crate) fn add_key(out: &mut Vec<u8>, key: &str) -> Result<(), Memory>
    requires { list_all is_name_byte key.now ≡ true }
    ensures { Adds out.old out.new (keyed key.now) result }
{
    add_quoted(out, key.as_bytes())?;
    put(out, b":")
}

/// Appends an opening brace and the first member of an object.
pub(crate) fn add_first<T: Told>(out: &mut Vec<u8>, key: &str, value: &T) -> Result<(), Memory>
    requires { list_all is_name_byte key.now ≡ true }
    ensures { Adds out.old out.new (123 ∷ (keyed key.now ++ compact_text (T.told value.now))) result }
{
    put(out, b"{")?;
    add_key(out, key)?;
    value.add(out)
}

/// Appends a comma and a member.
#[tactic(auto, unfolding(pm_print::specs::Members::leading))]
pub(crate) fn add_member<T: Told>(out: &mut Vec<u8>, key: &str, value: &T) -> Result<(), Memory>
    requires { list_all is_name_byte key.now ≡ true }
    ensures { Adds out.old out.new (leading key.now (Some (T.told value.now))) result }
{
    put(out, b",")?;
    add_key(out, key)?;
    value.add(out)
}

fn add_only_parts<T: Told>(out: &mut Vec<u8>, key: Key, value: &T) -> Result<(), Memory>
    ensures { Adds out.old out.new (123 ∷ (keyed (key_text key) ++ (compact_text (T.told value.now) ++ codes "}"))) result }
{
    add_first(out, key.text(), value)?;
    put(out, b"}")
}

/// Appends an object of one member.
pub(crate) fn add_only<T: Told>(out: &mut Vec<u8>, key: Key, value: &T) -> Result<(), Memory>
    ensures { Adds out.old out.new (compact_text (only key (T.told value.now))) result }
{
    add_only_parts(out, key, value)
}
