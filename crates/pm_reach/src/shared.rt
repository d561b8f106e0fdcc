//! Pages that copies share: a pointer for each row, and no more, so that a copy of one is small.

ghost use Rattle.std.specs.Prelude.{◌≡◌, ◌≢◌, ℕ, ◌<◌, ◌||◌, ◌/◌, ◌%◌, length, option_map, IfOk};
ghost use Rattle.std.specs.Option.{option_copied};
ghost use Rattle.std.specs.Arc.{arc_value};
ghost use Rattle.pm_reach.specs.Words.{in_row};
ghost use Rattle.pm_reach.specs.Rows.{option_at, row_has, most};
ghost use Rattle.pm_reach.specs.Table.{words_in, words_of, words_behind, shown, shown_shared, page_rows};

use crate::held::Held;
use crate::page::{Page, Row, copy_row, copy_rows, find_row};
use crate::words;
use pm_model::Memory;
use pm_pages::Owned;
use std::alloc::Global;
use std::cmp::min;
use std::sync::Arc;

/// The rows of 64 numbers, each of which other tables may have too. It ends behind its last row.
pub(crate) struct SharedPage {
    pub(crate) rows: Vec<Option<Arc<Row>>>,
}

impl Drop for SharedPage {
    fn drop(self) {
        let SharedPage { rows: _ } = self;
    }
}

/// A page, as a table has it.
#[derive(Drop)]
pub(crate) enum HeldPage {
    /// It has no rows.
    Empty,
    /// No other table has it.
    Own(Owned<Page>),
    /// Other tables may have it too.
    Shared(Arc<SharedPage>),
}

/// The words of the row at a place, where it has one.
#[tactic(auto, using(crate::proofs::Tables::option_at_map))]
fn find_shared(rows: &[Option<Arc<Row>>], j: usize) -> Option<&[u64]>
    ensures { option_copied result ≡ option_at (shown_shared rows.now) j }
{
    match rows.get(j) {
        Some(Some(row)) => Some(row.words.as_slice()),
        _ => None,
    }
}

/// The words of the row at a place of a page, where it has one.
pub(crate) fn find_in(page: &HeldPage, j: usize) -> Option<&[u64]>
    ensures { option_copied result ≡ option_at (page_rows page.now) j }
{
    match page {
        HeldPage::Empty => None,
        HeldPage::Own(page) => find_row(page.get().rows.as_slice(), j),
        HeldPage::Shared(page) => find_shared(page.rows.as_slice(), j),
    }
}

/// Whether there is a row at the place of the page, and x is in it.
fn row_at_has(page: &HeldPage, j: usize, x: u32) -> bool
    ensures { result ≡ row_has (option_at (page_rows page.now) j) x }
{
    match find_in(page, j) {
        Some(words) => words::has(words, x),
        None => false,
    }
}

/// How many places a page has.
fn places(page: &HeldPage) -> usize
    ensures { result ≡ length (page_rows page.now) }
{
    match page {
        HeldPage::Empty => 0,
        HeldPage::Own(page) => page.get().rows.len(),
        HeldPage::Shared(page) => page.rows.len(),
    }
}

/// Puts the numbers of page k whose rows have x into the row.
pub(crate) fn mark_rows(page: &HeldPage, k: u32, x: u32, into: &mut [u64])
    requires few { k < most }
    requires wide { k < length into.old }
    ensures here { (q : ℕ) → q / 64 ≡ k → in_row into.new q ≡ (in_row into.old q || row_has (option_at (page_rows page.now) (q % 64)) x) }
    ensures others { (q : ℕ) → q / 64 ≢ k → in_row into.new q ≡ in_row into.old q }
    ensures long { length into.new ≡ length into.old }
{
    for j in 0..min(places(page), 64) {
        if row_at_has(page, j, x) {
            words::set_bit(into, 64 * k + j as u32);
        }
    }
}

/// The row, to be shared: a copy of one that was the page's own.
fn shared_row(alloc: Global, row: &Held<Row>) -> Result<Arc<Row>, Memory>
    ensures { IfOk result (λ same. words_behind same ≡ words_of row.now) }
{
    match row {
        Held::Own(row) => Ok(Arc::new(alloc, copy_row(alloc, row)?)?),
        Held::Shared(shared) => Ok(Arc::try_clone(shared)?),
    }
}

fn shared_place(alloc: Global, place: &Option<Held<Row>>) -> Result<Option<Arc<Row>>, Memory>
    ensures { IfOk result (λ same. option_map words_behind same ≡ option_map words_of place.now) }
{
    match place {
        Some(row) => Ok(Some(shared_row(alloc, row)?)),
        None => Ok(None),
    }
}

/// The same rows, to be shared.
fn shared_rows(alloc: Global, rows: &[Option<Held<Row>>]) -> Result<Vec<Option<Arc<Row>>>, Memory>
    ensures { IfOk result (λ same. shown_shared same.items ≡ shown rows.now) }
{
    let mut same = Vec::with_capacity(alloc, rows.len())?;
    for place in rows {
        same.push(shared_place(alloc, place)?)?;
    }
    Ok(same)
}

/// The same page, to be shared.
pub(crate) fn shared_of(alloc: Global, page: &Owned<Page>) -> Result<Arc<SharedPage>, Memory>
    ensures { IfOk result (λ same. shown_shared (arc_value same).rows.items ≡ shown page.now.rows.items) }
{
    let rows = shared_rows(alloc, page.get().rows.as_slice())?;
    Ok(Arc::new(alloc, SharedPage { rows })?)
}

fn own_place(place: &Option<Arc<Row>>) -> Result<Option<Held<Row>>, Memory>
    ensures { IfOk result (λ same. option_map words_of same ≡ option_map words_behind place.now) }
{
    match place {
        Some(row) => Ok(Some(Held::Shared(Arc::try_clone(row)?))),
        None => Ok(None),
    }
}

/// The same rows in a page of one's own. The rows stay shared.
fn own_rows(alloc: Global, rows: &[Option<Arc<Row>>]) -> Result<Vec<Option<Held<Row>>>, Memory>
    ensures { IfOk result (λ same. shown same.items ≡ shown_shared rows.now) }
{
    let mut same = Vec::with_capacity(alloc, rows.len())?;
    for place in rows {
        same.push(own_place(place)?)?;
    }
    Ok(same)
}

/// A page of one's own with the rows of a shared one.
pub(crate) fn own_page_of(alloc: Global, page: &SharedPage) -> Result<Owned<Page>, Memory>
    ensures { IfOk result (λ same. shown same.rows.items ≡ shown_shared page.now.rows.items) }
{
    let rows = own_rows(alloc, page.rows.as_slice())?;
    Owned::new(alloc, Page { rows })
}

/// The same page once more. Rows that are shared stay so.
pub(crate) fn copy_of(alloc: Global, page: &Owned<Page>) -> Result<Owned<Page>, Memory>
    ensures { IfOk result (λ same. shown same.rows.items ≡ shown page.now.rows.items) }
{
    let rows = copy_rows(alloc, page.get().rows.as_slice())?;
    Owned::new(alloc, Page { rows })
}
