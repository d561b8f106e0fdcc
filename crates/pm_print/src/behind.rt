//! Members of an object behind another one, each with a comma in front, and lists.
ghost use Rattle.std.specs.Prelude.{◌++◌, ◌∷◌, [], false, length, map, Some};
ghost use Rattle.serde_json.specs.Data.{Data};
ghost use Rattle.serde_json.specs.Written.{comma_if, compact_text};
ghost use Rattle.pm_model.specs.Object.{listed, texted, whole, whole_if};
ghost use Rattle.pm_model.specs.Text.{said};
ghost use Rattle.pm_model.specs.Words.{key_text};
ghost use Rattle.pm_print.specs.Actions.{name_if, name_told};
ghost use Rattle.pm_print.specs.Behind.{member_told};
ghost use Rattle.pm_print.specs.Growth.{Adds};
ghost use Rattle.pm_print.specs.Members.{item_text, items_front, keyed, leading, leading_all};

use crate::put::{add_decimal, add_key, add_quoted, put};
use pm_model::{Key, Memory, Name, Word};

/// What stands in a list.
pub(crate) trait Item {
    /// The value that it is told as.
    ghost told: { Self → Data };

    /// Appends its text.
    fn add(&self, out: &mut Vec<u8>) -> Result<(), Memory>
        ensures { Adds out.old out.new (compact_text (told self.now)) result };
}

impl Item for Name {
    ghost told = { name_told };

    fn add(&self, out: &mut Vec<u8>) -> Result<(), Memory> {
        add_quoted(out, self.bytes())
    }
}

// Appends a comma, where something stands before.
fn add_comma_if(out: &mut Vec<u8>, later: bool) -> Result<(), Memory>
    ensures { Adds out.old out.new (comma_if later) result }
{
    if later {
        return put(out, b",");
    }
    Ok(())
}

fn add_item<T: Item>(out: &mut Vec<u8>, later: bool, item: &T) -> Result<(), Memory>
    ensures { Adds out.old out.new (item_text later (T.told item.now)) result }
{
    add_comma_if(out, later)?;
    item.add(out)
}

// Appends the items, with commas between them.
fn add_items<T: Item>(out: &mut Vec<u8>, items: &[T]) -> Result<(), Memory>
    ensures { Adds out.old out.new (items_front false (map T.told items.now)) result }
{
    for (i, item) in items.iter().enumerate() {
        add_item(out, i > 0, item)?;
    }
    Ok(())
}

// Appends the items in their brackets.
fn add_list_parts<T: Item>(out: &mut Vec<u8>, items: &[T]) -> Result<(), Memory>
    ensures { Adds out.old out.new (91 ∷ (items_front false (map T.told items.now) ++ 93 ∷ [])) result }
{
    put(out, b"[")?;
    add_items(out, items)?;
    put(out, b"]")
}

/// Appends the list.
pub(crate) fn add_list<T: Item>(out: &mut Vec<u8>, items: &[T]) -> Result<(), Memory>
    ensures { Adds out.old out.new (compact_text (listed (map T.told items.now))) result }
{
    add_list_parts(out, items)
}

/// Appends a comma and the key with its colon.
pub(crate) fn add_key_behind(out: &mut Vec<u8>, key: Key) -> Result<(), Memory>
    ensures { Adds out.old out.new (44 ∷ keyed (key_text key)) result }
{
    put(out, b",")?;
    add_key(out, key)
}

/// Appends a comma and a member that is a number.
#[tactic(auto, unfolding(crate::specs::Members::leading))]
pub(crate) fn add_number(out: &mut Vec<u8>, key: Key, n: u64) -> Result<(), Memory>
    ensures { Adds out.old out.new (leading (key_text key) (whole n)) result }
{
    add_key_behind(out, key)?;
    add_decimal(out, n)
}

/// Appends a comma and a member that is a number, where there is one.
#[tactic(auto, unfolding(crate::specs::Members::leading))]
pub(crate) fn add_number_if(out: &mut Vec<u8>, key: Key, n: Option<u64>) -> Result<(), Memory>
    ensures { Adds out.old out.new (leading (key_text key) (whole_if n)) result }
{
    match n {
        None => Ok(()),
        Some(n) => add_number(out, key, n),
    }
}

/// Appends a comma and a member that is a name.
#[tactic(auto, unfolding(crate::specs::Members::leading))]
pub(crate) fn add_name(out: &mut Vec<u8>, key: Key, name: &Name) -> Result<(), Memory>
    ensures { Adds out.old out.new (leading (key_text key) (texted name.now)) result }
{
    add_key_behind(out, key)?;
    add_quoted(out, name.bytes())
}

/// Appends a comma and a member that is a name, where there is one.
#[tactic(auto, unfolding(crate::specs::Members::leading))]
pub(crate) fn add_name_if(out: &mut Vec<u8>, key: Key, name: &Option<Name>) -> Result<(), Memory>
    ensures { Adds out.old out.new (leading (key_text key) (name_if name.now)) result }
{
    match name {
        None => Ok(()),
        Some(name) => add_name(out, key, name),
    }
}

/// Appends a comma and a member that is a fixed text.
#[tactic(auto, using(crate::proofs::Texts::word_name), unfolding(crate::specs::Members::leading))]
pub(crate) fn add_word(out: &mut Vec<u8>, key: Key, word: Word) -> Result<(), Memory>
    ensures { Adds out.old out.new (leading (key_text key) (said word)) result }
{
    add_key_behind(out, key)?;
    add_quoted(out, word.text().as_bytes())
}

/// Appends a comma and a member that is a list.
#[tactic(auto, unfolding(crate::specs::Members::leading))]
pub(crate) fn add_list_behind<T: Item>(
    out: &mut Vec<u8>,
    key: Key,
    items: &[T],
) -> Result<(), Memory>
    ensures { Adds out.old out.new (leading (key_text key) (Some (listed (map T.told items.now)))) result }
{
    add_key_behind(out, key)?;
    add_list(out, items)
}

/// A member: its key, and what stands there.
#[derive(Drop)]
pub(crate) enum Member<'a> {
    Number(Key, u64),
    NumberIf(Key, Option<u64>),
    Name(Key, &'a Name),
    Names(Key, &'a [Name]),
    Word(Key, Word),
}

fn add_member(out: &mut Vec<u8>, member: &Member<'_>) -> Result<(), Memory>
    ensures { Adds out.old out.new (leading (member_told member.now).0 (member_told member.now).1) result }
{
    match member {
        Member::Number(key, n) => add_number(out, *key, *n),
        Member::NumberIf(key, n) => add_number_if(out, *key, *n),
        Member::Name(key, name) => add_name(out, *key, name),
        Member::Names(key, names) => add_list_behind(out, *key, names),
        Member::Word(key, word) => add_word(out, *key, *word),
    }
}

/// Appends the members, each with a comma in front, where it is there.
pub(crate) fn add_members(out: &mut Vec<u8>, members: &[Member<'_>]) -> Result<(), Memory>
    ensures { Adds out.old out.new (leading_all (map member_told members.now)) result }
{
    for member in members {
        add_member(out, member)?;
    }
    Ok(())
}
