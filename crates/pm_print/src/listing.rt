//! The lists of reviews, item by item, at the end of a vector.
ghost use Rattle.std.specs.Prelude.{◌≡◌, ◌++◌, ◌∷◌, [], ◌≤◌, ◌<◌, ◌+◌, ◌*◌, ◌^◌, false, length, map, Some, IsTrue};
ghost use Rattle.std.specs.Fmt.{digits, digit_glyph};
ghost use Rattle.std.specs.List.{zip};
ghost use Rattle.json.specs.Print.{quoted};
ghost use Rattle.serde_json.specs.Data.{string, number, unsigned};
ghost use Rattle.serde_json.specs.Written.{comma_if, compact_text};
ghost use Rattle.pm_model.specs.Object.{listed};
ghost use Rattle.pm_model.specs.Formed.{Each};
ghost use Rattle.pm_model.specs.Nameable.{ArePairsNameable};
ghost use Rattle.pm_model.specs.Text.{change_told, count_told, pair_told, rights_text};
ghost use Rattle.pm_print.specs.Growth.{Appended, change_most, key_most, pair_most, quoted_most, rights_most};
ghost use Rattle.pm_model.specs.Words.{key_text};
ghost use Rattle.pm_print.specs.Members.{item_text, items_front, trailing};

use crate::put::{put, put_decimal, put_key, put_quoted};
use pm_model::{Changed, ElementId, Key, Memory, Name, NameOf, Pair, RightWord, Rights};

// A digit of 16.
fn hex_digit(digit: RightWord) -> u8
    requires { digit < 16 }
    ensures { result ≡ digit_glyph false digit }
{
    if digit < 10 {
        return b'0' + digit as u8;
    }
    b'a' + (digit - 10) as u8
}

// Appends the hexadecimal digits of the number.
#[tactic(auto, using(crate::proofs::Hex::hex_one))]
fn put_hex(out: &mut Vec<u8>, n: RightWord) -> Result<(), Memory>
    ensures { Appended out.old out.new (digits 16 false n) (length (digits 16 false n)) result }
{
    if n < 16 {
        return put(out, &[hex_digit(n)]);
    }
    put_hex(out, n / 16)?;
    put(out, &[hex_digit(n % 16)])
}

// Appends the number of a set of rights, in quotes.
fn put_rights(out: &mut Vec<u8>, rights: RightWord) -> Result<(), Memory>
    ensures { Appended out.old out.new (quoted (rights_text rights)) rights_most result }
{
    put(out, b"\"")?;
    put_hex(out, rights)?;
    put(out, b"\"")
}

// Appends a comma, where something stands before.
fn put_comma_if(out: &mut Vec<u8>, later: bool) -> Result<(), Memory>
    ensures { Appended out.old out.new (comma_if later) 1 result }
{
    if later {
        return put(out, b",");
    }
    put(out, b"")
}

// Appends the start of an item that begins with a name.
fn put_start(out: &mut Vec<u8>, later: bool, name: &Name) -> Result<(), Memory>
    ensures { Appended out.old out.new (comma_if later ++ (91 ∷ (quoted name.now ++ 44 ∷ []))) (quoted_most + 3) result }
{
    put_comma_if(out, later)?;
    put(out, b"[")?;
    put_quoted(out, name.bytes())?;
    put(out, b",")
}

// Appends the item of a name and a set of rights.
fn put_pair(out: &mut Vec<u8>, later: bool, name: &Name, rights: Rights) -> Result<(), Memory>
    ensures { Appended out.old out.new (item_text later (listed (string name.now ∷ string (rights_text rights) ∷ []))) pair_most result }
{
    put_start(out, later, name)?;
    put_rights(out, rights.0)?;
    put(out, b"]")
}

// Appends two sets of rights with a comma between them.
fn put_both(out: &mut Vec<u8>, old: RightWord, new: RightWord) -> Result<(), Memory>
    ensures { Appended out.old out.new (quoted (rights_text old) ++ 44 ∷ quoted (rights_text new)) (2 * rights_most + 1) result }
{
    put_rights(out, old)?;
    put(out, b",")?;
    put_rights(out, new)
}

// Appends the item of a name and two sets of rights.
fn put_change(out: &mut Vec<u8>, later: bool, change: &Changed) -> Result<(), Memory>
    ensures { Appended out.old out.new (item_text later (change_told change.now)) change_most result }
{
    put_start(out, later, &change.name)?;
    put_both(out, change.old.0, change.new.0)?;
    put(out, b"]")
}

// Appends the item of a name and a number.
fn put_count(out: &mut Vec<u8>, later: bool, name: &Name, count: u64) -> Result<(), Memory>
    ensures { Appended out.old out.new (item_text later (listed (string name.now ∷ number (unsigned count) ∷ []))) pair_most result }
{
    put_start(out, later, name)?;
    put_decimal(out, count)?;
    put(out, b"]")
}

/// Appends the items of a list of elements or users with their rights.
pub(crate) fn put_pairs<N: NameOf>(
    out: &mut Vec<u8>,
    names: &N,
    pairs: &[Pair],
) -> Result<(), Memory>
    requires { ArePairsNameable (N.named names.now) pairs.now }
    ensures { Appended out.old out.new (items_front false (map (pair_told (N.name_at names.now)) pairs.now)) (pair_most * length pairs.now) result }
{
    for (i, pair) in pairs.iter().enumerate() {
        let name = names.name_of(pair.element);
        put_pair(out, i > 0, &name, pair.rights)?;
    }
    Ok(())
}

/// Appends the items of a list of users with a count each: as many as both lists have.
pub(crate) fn put_counts<N: NameOf>(
    out: &mut Vec<u8>,
    names: &N,
    users: &[ElementId],
    counts: &[u64],
) -> Result<(), Memory>
    requires { Each (λ u. IsTrue (N.named names.now u)) users.now }
    ensures { Appended out.old out.new (items_front false (map (count_told (N.name_at names.now)) (zip users.now counts.now))) (pair_most * length (zip users.now counts.now)) result }
{
    for i in 0..users.len().min(counts.len()) {
        let name = names.name_of(users[i]);
        put_count(out, i > 0, &name, counts[i])?;
    }
    Ok(())
}

/// Appends the items of a list of what has changed.
pub(crate) fn put_changes(out: &mut Vec<u8>, changes: &[Changed]) -> Result<(), Memory>
    ensures { Appended out.old out.new (items_front false (map change_told changes.now)) (change_most * length changes.now) result }
{
    for (i, change) in changes.iter().enumerate() {
        put_change(out, i > 0, change)?;
    }
    Ok(())
}

/// Appends the member of a list of elements or users with their rights, and a comma.
pub(crate) fn put_list<N: NameOf>(
    out: &mut Vec<u8>,
    names: &N,
    pairs: &[Pair],
) -> Result<(), Memory>
    requires { ArePairsNameable (N.named names.now) pairs.now }
    ensures { Appended out.old out.new (trailing (key_text Key.List) (Some (listed (map (pair_told (N.name_at names.now)) pairs.now)))) (key_most + 3 + pair_most * length pairs.now) result }
{
    put_key(out, Key::List)?;
    put(out, b"[")?;
    put_pairs(out, names, pairs)?;
    put(out, b"],")
}

/// Appends the member of a list of what has changed, and a comma.
pub(crate) fn put_changed(out: &mut Vec<u8>, changes: &[Changed]) -> Result<(), Memory>
    ensures { Appended out.old out.new (trailing (key_text Key.List) (Some (listed (map change_told changes.now)))) (key_most + 3 + change_most * length changes.now) result }
{
    put_key(out, Key::List)?;
    put(out, b"[")?;
    put_changes(out, changes)?;
    put(out, b"],")
}

/// Appends the member of a list of users with a count each, and a comma.
pub(crate) fn put_survey<N: NameOf>(
    out: &mut Vec<u8>,
    names: &N,
    users: &[ElementId],
    counts: &[u64],
) -> Result<(), Memory>
    requires { Each (λ u. IsTrue (N.named names.now u)) users.now }
    ensures { Appended out.old out.new (trailing (key_text Key.Counts) (Some (listed (map (count_told (N.name_at names.now)) (zip users.now counts.now))))) (key_most + 3 + pair_most * length (zip users.now counts.now)) result }
{
    put_key(out, Key::Counts)?;
    put(out, b"[")?;
    put_counts(out, names, users, counts)?;
    put(out, b"],")
}
