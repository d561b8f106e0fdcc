//! A page: the rows of 64 numbers. It ends behind its last row.

ghost use Rattle.std.specs.Prelude.{◌≡◌, ◌≢◌, ℕ, ◌<◌, ◌≤◌, ◌==◌, ◌||◌, ◌/◌, ◌%◌, [], true, false, None, Some, length, slice_set, vec_len, vec_capacity, option_map, is_some, IfOk, IfErr, OnOk, OnErr, IsSome};
ghost use Rattle.std.specs.Bool.{OnTrue};
ghost use Rattle.std.specs.Option.{option_copied};
ghost use Rattle.pm_reach.specs.Words.{in_row};
ghost use Rattle.pm_reach.specs.Rows.{option_at, row_has, most};
ghost use Rattle.pm_reach.specs.Table.{value_of, words_in, words_of, room_at, shown, spare, HasRoom};
ghost use Rattle.pm_reach.specs.declared.held.Held.{Held};
ghost use Rattle.pm_reach.specs.declared.page.Row.{Row};

use crate::held::{Held, read, shared};
use crate::words;
use pm_model::Memory;
use pm_pages::Owned;
use std::alloc::Global;
use std::sync::Arc;

/// A row of bits.
pub(crate) struct Row {
    pub(crate) words: Vec<u64>,
}

impl Drop for Row {
    fn drop(self) {
        let Row { words: _ } = self;
    }
}

/// The rows of 64 numbers.
pub(crate) struct Page {
    pub(crate) rows: Vec<Option<Held<Row>>>,
}

impl Drop for Page {
    fn drop(self) {
        let Page { rows: _ } = self;
    }
}

/// The words of the row at a place, where it has one.
#[tactic(auto, using(crate::proofs::Tables::option_at_map))]
pub(crate) fn find_row(rows: &[Option<Held<Row>>], j: usize) -> Option<&[u64]>
    ensures { option_copied result ≡ option_at (shown rows.now) j }
{
    match rows.get(j) {
        Some(Some(row)) => Some(read(row).words.as_slice()),
        _ => None,
    }
}

/// Makes the page at least so long, in the room that it has.
fn lengthen(rows: &mut Vec<Option<Held<Row>>>, n: usize)
    requires { n ≤ vec_capacity rows.old }
    ensures long { n ≤ vec_len rows.new }
    ensures same { (i : ℕ) → option_at rows.new.items i ≡ option_at rows.old.items i }
{
    while rows.len() < n {
        rows.push_reserved(None);
    }
}

/// Takes a row out, to be put back.
fn take_row(rows: &mut Vec<Option<Held<Row>>>, j: usize) -> Held<Row>
    requires { IsSome (option_at rows.old.items j) }
    ensures row { option_at rows.old.items j ≡ Some result }
    ensures rows { rows.new.items ≡ slice_set rows.old.items j None }
{
    rows[j].take().unwrap()
}

/// Puts a row at a place.
fn put_row(rows: &mut Vec<Option<Held<Row>>>, j: usize, row: Held<Row>)
    requires { j < vec_len rows.old }
    ensures { rows.new.items ≡ slice_set rows.old.items j (Some row) }
{
    rows[j] = Some(row);
}

/// Makes room for so many words.
fn reserve(words: &mut Vec<u64>, n: usize) -> Result<(), Memory>
    ensures words { words.new.items ≡ words.old.items }
    ensures room { OnOk result (n ≤ vec_capacity words.new) }
    ensures grown { vec_capacity words.old ≤ vec_capacity words.new }
{
    let more = n.saturating_sub(words.len());
    words.reserve(more)?;
    Ok(())
}

pub(crate) fn copy_row(alloc: Global, row: &Row) -> Result<Row, Memory>
    ensures { IfOk result (λ same. words_in same ≡ words_in row.now) }
{
    let words = Vec::from_slice(alloc, row.words.as_slice())?;
    Ok(Row { words })
}

/// A row that no other table has, with the same words.
fn own_row(alloc: Global, row: Held<Row>) -> Result<Row, Held<Row>>
    ensures ok { IfOk result (λ same. words_in same ≡ words_of row) }
    ensures own { (r : Row) → row ≡ Held.Own r → IfOk result (λ same. same ≡ r) }
    ensures err { IfErr result (λ same. same ≡ row) }
{
    match row {
        Held::Own(row) => Ok(row),
        Held::Shared(shared) => unshared_row(alloc, shared),
    }
}

fn unshared_row(alloc: Global, shared: Arc<Row>) -> Result<Row, Held<Row>>
    ensures ok { IfOk result (λ same. words_in same ≡ words_of (Held.Shared shared)) }
    ensures err { IfErr result (λ same. same ≡ Held.Shared shared) }
{
    match Arc::try_unwrap(shared) {
        Ok(row) => Ok(row),
        Err(shared) => match copy_row(alloc, &shared) {
            Ok(row) => Ok(row),
            Err(_) => Err(Held::Shared(shared)),
        },
    }
}

/// Whether a row is the page's own, with room for so many words.
fn has_room(row: &Option<Held<Row>>, n: usize) -> bool
    ensures { OnTrue result (HasRoom (room_at row.now) n) }
{
    match row {
        Some(Held::Own(row)) => n <= row.words.capacity(),
        _ => false,
    }
}

/// Makes the row at a place the page's own, with room for so many words.
pub(crate) fn ready_row(rows: &mut Vec<Option<Held<Row>>>, j: usize, n: usize) -> Result<(), Memory>
    requires { IsSome (option_at rows.old.items j) }
    ensures rows { shown rows.new.items ≡ shown rows.old.items }
    ensures room { OnOk result (HasRoom (option_at (spare rows.new.items) j) n) }
    ensures stays { (i m : ℕ) → HasRoom (option_at (spare rows.old.items) i) m → HasRoom (option_at (spare rows.new.items) i) m }
{
    if has_room(&rows[j], n) {
        return Ok(());
    }
    let alloc = *rows.allocator();
    let held = take_row(rows, j);
    match own_row(alloc, held) {
        Ok(mut row) => {
            let result = reserve(&mut row.words, n);
            put_row(rows, j, Held::Own(row));
            result
        }
        Err(same) => {
            put_row(rows, j, same);
            Err(Memory)
        }
    }
}

/// Puts what another row has into the row at a place.
pub(crate) fn join_row(rows: &mut Vec<Option<Held<Row>>>, j: usize, other: &[u64])
    requires { HasRoom (option_at (spare rows.old.items) j) (length other.now) }
    ensures row { (q : ℕ) → row_has (option_at (shown rows.new.items) j) q ≡ (row_has (option_at (shown rows.old.items) j) q || in_row other.now q) }
    ensures live { is_some (option_at rows.new.items j) ≡ true }
    ensures others { (i : ℕ) → i ≢ j → option_at rows.new.items i ≡ option_at rows.old.items i }
{
    match &mut rows[j] {
        Some(Held::Own(row)) => words::join(&mut row.words, other),
        _ => unreachable!(),
    }
}

/// Lets the row at a place have what another row has, which it has already, and nothing else.
pub(crate) fn overwrite_row(rows: &mut Vec<Option<Held<Row>>>, j: usize, other: &[u64])
    requires ready { HasRoom (option_at (spare rows.old.items) j) 0 }
    requires less { (q : ℕ) → in_row other.now q ≡ true → row_has (option_at (shown rows.old.items) j) q ≡ true }
    ensures row { (q : ℕ) → row_has (option_at (shown rows.new.items) j) q ≡ in_row other.now q }
    ensures live { is_some (option_at rows.new.items j) ≡ true }
    ensures others { (i : ℕ) → i ≢ j → option_at rows.new.items i ≡ option_at rows.old.items i }
{
    match &mut rows[j] {
        Some(Held::Own(row)) => words::overwrite(&mut row.words, other),
        _ => unreachable!(),
    }
}

/// Makes room for a row at a place.
pub(crate) fn reserve_place(rows: &mut Vec<Option<Held<Row>>>, j: usize) -> Result<(), Memory>
    requires { j < 64 }
    ensures same { rows.new.items ≡ rows.old.items }
    ensures room { OnOk result (j < vec_capacity rows.new) }
{
    let more = (j + 1).saturating_sub(rows.len());
    rows.reserve(more)?;
    Ok(())
}

/// Gives a place a row, in the room that the page has.
pub(crate) fn place_row(rows: &mut Vec<Option<Held<Row>>>, j: usize, words: Vec<u64>)
    requires { j < vec_capacity rows.old }
    ensures row { option_at (shown rows.new.items) j ≡ Some words.items }
    ensures others { (i : ℕ) → i ≢ j → option_at rows.new.items i ≡ option_at rows.old.items i }
{
    lengthen(rows, j + 1);
    put_row(rows, j, Held::Own(Row { words }));
}

/// A page with a row at a place, and no other.
pub(crate) fn page_with(alloc: Global, j: usize, words: Vec<u64>) -> Result<Owned<Page>, Memory>
    requires { j < 64 }
    ensures row { IfOk result (λ page. option_at (shown page.rows.items) j ≡ Some words.items) }
    ensures alone { IfOk result (λ page. (i : ℕ) → i ≢ j → option_at page.rows.items i ≡ None) }
{
    let mut rows = Vec::new(alloc);
    reserve_place(&mut rows, j)?;
    place_row(&mut rows, j, words);
    Owned::new(alloc, Page { rows })
}

/// Takes the row at a place away.
pub(crate) fn clear_row(rows: &mut Vec<Option<Held<Row>>>, j: usize)
    requires { IsSome (option_at rows.old.items j) }
    ensures none { option_at (shown rows.new.items) j ≡ None }
    ensures others { (i : ℕ) → i ≢ j → option_at rows.new.items i ≡ option_at rows.old.items i }
{
    let _row = take_row(rows, j);
}

fn copy_held(alloc: Global, row: &Held<Row>) -> Result<Held<Row>, Memory>
    ensures { IfOk result (λ same. words_of same ≡ words_of row.now) }
{
    match row {
        Held::Own(row) => Ok(Held::Own(copy_row(alloc, row)?)),
        Held::Shared(shared) => Ok(Held::Shared(Arc::try_clone(shared)?)),
    }
}

fn copy_place(alloc: Global, place: &Option<Held<Row>>) -> Result<Option<Held<Row>>, Memory>
    ensures { IfOk result (λ same. option_map words_of same ≡ option_map words_of place.now) }
{
    match place {
        Some(row) => Ok(Some(copy_held(alloc, row)?)),
        None => Ok(None),
    }
}

/// The same rows once more. Those that are shared stay so.
pub(crate) fn copy_rows(
    alloc: Global,
    rows: &[Option<Held<Row>>],
) -> Result<Vec<Option<Held<Row>>>, Memory>
    ensures { IfOk result (λ same. shown same.items ≡ shown rows.now) }
{
    let mut same = Vec::with_capacity(alloc, rows.len())?;
    for place in rows {
        same.push(copy_place(alloc, place)?)?;
    }
    Ok(same)
}

/// Lets the row at a place be shared.
fn share_row(rows: &mut Vec<Option<Held<Row>>>, j: usize) -> Result<(), Memory>
    requires { IsSome (option_at rows.old.items j) }
    ensures long { vec_len rows.new ≡ vec_len rows.old }
    ensures rows { shown rows.new.items ≡ shown rows.old.items }
{
    let alloc = *rows.allocator();
    let held = take_row(rows, j);
    match shared(alloc, held) {
        Ok(same) => {
            put_row(rows, j, same);
            Ok(())
        }
        Err(same) => {
            put_row(rows, j, same);
            Err(Memory)
        }
    }
}

/// Lets each row be shared.
pub(crate) fn share_rows(rows: &mut Vec<Option<Held<Row>>>) -> Result<(), Memory>
    ensures { shown rows.new.items ≡ shown rows.old.items }
{
    for j in 0..rows.len() {
        if rows[j].is_some() {
            share_row(rows, j)?;
        }
    }
    Ok(())
}
