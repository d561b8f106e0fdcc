//! The table of rows, in pages of 64 numbers.

ghost use Rattle.std.specs.Prelude.{◌≡◌, ◌≢◌, ℕ, ◌<◌, ◌≤◌, ◌+◌, ◌==◌, ◌||◌, ◌/◌, [], true, false, None, Some, length, map, slice_get, slice_set, vec_len, vec_capacity, is_some, IfOk, IfErr, OnOk, OnErr, ◌*◌};
ghost use Rattle.std.specs.Int.{bit_at};
ghost use Rattle.std.specs.Option.{option_copied};
ghost use Rattle.pm_reach.specs.Words.{in_row};
ghost use Rattle.pm_reach.specs.Rows.{place_at, has, below, most};
ghost use Rattle.pm_reach.specs.Table.{shown, page_rows, tabled, is_own, IsPushed, IsReady, IsOpen, StaysReady, Writes};
ghost use Rattle.pm_reach.specs.NewRows.{new_words, Fits};
ghost use Rattle.pm_reach.specs.declared.shared.HeldPage.{HeldPage};
ghost use Rattle.pm_reach.specs.declared.page.Page.{Page};

use crate::page::{
    Page, clear_row, join_row, overwrite_row, page_with, place_row, ready_row, reserve_place,
    share_rows,
};
use crate::shared::{HeldPage, copy_of, find_in, mark_rows, own_page_of, shared_of};
use crate::words;
use pm_model::Memory;
use pm_pages::Owned;
use std::alloc::Global;
use std::marker::Model;
use std::mem::replace;
use std::sync::Arc;

/// A row that can be given to a number without memory.
#[derive(Drop)]
pub(crate) enum NewRow {
    /// Its words, where there is a page for it.
    Within(Vec<u64>),
    /// A page with this row alone, which goes behind the others.
    Beyond(Owned<Page>),
}

/// The rows, by number. Each page, and each row, is the table's own, or shared with copies of it.
pub(crate) struct RowTable {
    pages: Vec<HeldPage>,
}

impl Drop for RowTable {
    fn drop(self) {
        let RowTable { pages: _ } = self;
    }
}

impl Model for RowTable {
    ghost use Rattle.pm_reach.specs.Table.{Table};

    ghost Value = { Table };

    ghost use Rattle.pm_reach.specs.Table.{table_of};
    ghost use Rattle.std.specs.Prelude.{length, ◌≤◌};

    ghost view = { table_of };

    ghost invariant = { λ t. length t.pages.items ≤ 256 };
}

/// The words of the row of a number, where it has one.
#[tactic(auto, using(crate::proofs::Pages::place_in))]
fn find(pages: &[HeldPage], x: u32) -> Option<&[u64]>
    ensures { option_copied result ≡ place_at (map page_rows pages.now) x }
{
    match pages.get(x as usize / 64) {
        Some(page) => find_in(page, x as usize % 64),
        None => None,
    }
}

/// Puts the numbers of page k whose rows have x into the row.
fn mark_page(pages: &[HeldPage], k: u32, x: u32, into: &mut [u64])
    requires few { k < most }
    requires wide { k < length into.old }
    ensures here { (q : ℕ) → q / 64 ≡ k → in_row into.new q ≡ (in_row into.old q || below (map page_rows pages.now) q x) }
    ensures others { (q : ℕ) → q / 64 ≢ k → in_row into.new q ≡ in_row into.old q }
    ensures long { length into.new ≡ length into.old }
{
    if let Some(page) = pages.get(k as usize) {
        mark_rows(page, k, x, into);
    }
}

/// Takes a page out, to be put back.
#[tactic(auto, using(crate::proofs::Tables::set_set))]
fn take_held(pages: &mut Vec<HeldPage>, k: usize) -> HeldPage
    requires { k < vec_len pages.old }
    ensures page { slice_get pages.old.items k ≡ Some result }
    ensures pages { (v : HeldPage) → slice_set pages.new.items k v ≡ slice_set pages.old.items k v }
    ensures long { vec_len pages.new ≡ vec_len pages.old }
{
    replace(&mut pages[k], HeldPage::Empty)
}

/// Puts a page at a place.
fn put_page(pages: &mut Vec<HeldPage>, k: usize, page: HeldPage)
    requires { k < vec_len pages.old }
    ensures { pages.new.items ≡ slice_set pages.old.items k page }
{
    pages[k] = page;
}

/// Whether a page is the table's own.
fn is_own(page: &HeldPage) -> bool
    ensures { result ≡ is_own (Some page.now) }
{
    matches!(page, HeldPage::Own(_))
}

/// A page of one's own with the same rows.
fn own_of(alloc: Global, page: &HeldPage) -> Result<Owned<Page>, Memory>
    ensures { IfOk result (λ same. shown same.rows.items ≡ page_rows page.now) }
{
    match page {
        HeldPage::Empty => Owned::new(
            alloc,
            Page {
                rows: Vec::new(alloc),
            },
        ),
        HeldPage::Own(page) => copy_of(alloc, page),
        HeldPage::Shared(shared) => own_page_of(alloc, shared),
    }
}

/// Makes a page the table's own.
fn own_page(pages: &mut Vec<HeldPage>, k: usize) -> Result<(), Memory>
    requires { k < vec_len pages.old }
    ensures long { vec_len pages.new ≡ vec_len pages.old }
    ensures rows { map page_rows pages.new.items ≡ map page_rows pages.old.items }
    ensures own { OnOk result (is_own (slice_get pages.new.items k) ≡ true) }
    ensures stays { StaysReady (tabled pages.old) (tabled pages.new) }
{
    let held = &pages[k];
    if is_own(held) {
        return Ok(());
    }
    let page = own_of(*pages.allocator(), held)?;
    put_page(pages, k, HeldPage::Own(page));
    Ok(())
}

/// Takes a page out that is the table's own, to be put back.
#[tactic(auto, using(crate::proofs::Pages::is_own_some))]
fn take_page(pages: &mut Vec<HeldPage>, k: usize) -> Owned<Page>
    requires { is_own (slice_get pages.old.items k) ≡ true }
    ensures page { slice_get pages.old.items k ≡ Some (HeldPage.Own result) }
    ensures pages { (v : HeldPage) → slice_set pages.new.items k v ≡ slice_set pages.old.items k v }
    ensures long { vec_len pages.new ≡ vec_len pages.old }
{
    match take_held(pages, k) {
        HeldPage::Own(page) => page,
        _ => unreachable!(),
    }
}

/// Makes the row of x the table's own, with room for so many words.
fn ready_at(pages: &mut Vec<HeldPage>, x: u32, n: usize) -> Result<(), Memory>
    requires { has (map page_rows pages.old.items) x ≡ true }
    ensures long { vec_len pages.new ≡ vec_len pages.old }
    ensures rows { map page_rows pages.new.items ≡ map page_rows pages.old.items }
    ensures room { OnOk result (IsReady (tabled pages.new) x n) }
    ensures stays { StaysReady (tabled pages.old) (tabled pages.new) }
{
    let k = x as usize / 64;
    own_page(pages, k)?;
    match &mut pages[k] {
        HeldPage::Own(page) => ready_row(&mut page.get_mut().rows, x as usize % 64, n),
        _ => unreachable!(),
    }
}

/// Puts what another row has into the row of x.
fn join_at(pages: &mut Vec<HeldPage>, x: u32, other: &[u64])
    requires { IsReady (tabled pages.old) x (length other.now) }
    ensures long { vec_len pages.new ≡ vec_len pages.old }
    ensures row { (q : ℕ) → below (map page_rows pages.new.items) x q ≡ (below (map page_rows pages.old.items) x q || in_row other.now q) }
    ensures writes { Writes x (tabled pages.old) (tabled pages.new) }
{
    match &mut pages[x as usize / 64] {
        HeldPage::Own(page) => join_row(&mut page.get_mut().rows, x as usize % 64, other),
        _ => unreachable!(),
    }
}

/// Lets the row of x have what another row has, which it has already, and nothing else.
fn overwrite_at(pages: &mut Vec<HeldPage>, x: u32, other: &[u64])
    requires ready { IsReady (tabled pages.old) x 0 }
    requires less { (q : ℕ) → in_row other.now q ≡ true → below (map page_rows pages.old.items) x q ≡ true }
    ensures long { vec_len pages.new ≡ vec_len pages.old }
    ensures row { (q : ℕ) → below (map page_rows pages.new.items) x q ≡ in_row other.now q }
    ensures writes { Writes x (tabled pages.old) (tabled pages.new) }
{
    match &mut pages[x as usize / 64] {
        HeldPage::Own(page) => overwrite_row(&mut page.get_mut().rows, x as usize % 64, other),
        _ => unreachable!(),
    }
}

/// Makes the page of x the table's own, with a place for the row of x.
fn open_at(pages: &mut Vec<HeldPage>, x: u32) -> Result<(), Memory>
    requires { x / 64 < vec_len pages.old }
    ensures long { vec_len pages.new ≡ vec_len pages.old }
    ensures rows { map page_rows pages.new.items ≡ map page_rows pages.old.items }
    ensures open { OnOk result (IsOpen (tabled pages.new) x) }
{
    let k = x as usize / 64;
    own_page(pages, k)?;
    let mut page = take_page(pages, k);
    let result = reserve_place(&mut page.get_mut().rows, x as usize % 64);
    put_page(pages, k, HeldPage::Own(page));
    result
}

/// Makes room for a page at a place behind the others.
fn reserve_page(pages: &mut Vec<HeldPage>, k: usize) -> Result<(), Memory>
    requires few { k < most }
    requires behind { vec_len pages.old ≤ k }
    ensures same { pages.new.items ≡ pages.old.items }
    ensures room { OnOk result (k < vec_capacity pages.new) }
{
    let more = k - pages.len();
    pages.reserve(more + 1)?;
    Ok(())
}

/// Makes a row for x, which the table can be given without memory.
fn ready_new_at(pages: &mut Vec<HeldPage>, x: u32, words: Vec<u64>) -> Result<NewRow, Memory>
    requires { x < most }
    ensures long { vec_len pages.new ≡ vec_len pages.old }
    ensures rows { map page_rows pages.new.items ≡ map page_rows pages.old.items }
    ensures fits { IfOk result (λ row. Fits (tabled pages.new) x row) }
    ensures words { IfOk result (λ row. new_words x row ≡ Some words.items) }
{
    let k = x as usize / 64;
    if k < pages.len() {
        open_at(pages, x)?;
        return Ok(NewRow::Within(words));
    }
    let page = page_with(*pages.allocator(), x as usize % 64, words)?;
    reserve_page(pages, k)?;
    Ok(NewRow::Beyond(page))
}

/// Gives x a row, in a page that is there.
fn put_within(pages: &mut Vec<HeldPage>, x: u32, words: Vec<u64>)
    requires { IsOpen (tabled pages.old) x }
    ensures long { vec_len pages.new ≡ vec_len pages.old }
    ensures row { place_at (map page_rows pages.new.items) x ≡ Some words.items }
    ensures others { (y : ℕ) → y ≢ x → place_at (map page_rows pages.new.items) y ≡ place_at (map page_rows pages.old.items) y }
{
    let k = x as usize / 64;
    let mut page = take_page(pages, k);
    place_row(&mut page.get_mut().rows, x as usize % 64, words);
    put_page(pages, k, HeldPage::Own(page));
}

/// Puts a page at a place behind the others, in the room that there is.
fn push_page(pages: &mut Vec<HeldPage>, k: usize, page: Owned<Page>)
    requires room { k < vec_capacity pages.old }
    requires behind { vec_len pages.old ≤ k }
    ensures { IsPushed k page pages.old.items pages.new.items }
{
    while pages.len() < k {
        pages.push_reserved(HeldPage::Empty);
    }
    pages.push_reserved(HeldPage::Own(page));
}

/// Gives x a row, which fits.
fn put_at(pages: &mut Vec<HeldPage>, x: u32, row: NewRow)
    requires few { vec_len pages.old ≤ 256 }
    requires x { x < most }
    requires fits { Fits (tabled pages.old) x row }
    ensures few { vec_len pages.new ≤ 256 }
    ensures row { place_at (map page_rows pages.new.items) x ≡ new_words x row }
    ensures others { (y : ℕ) → y ≢ x → place_at (map page_rows pages.new.items) y ≡ place_at (map page_rows pages.old.items) y }
{
    match row {
        NewRow::Within(words) => put_within(pages, x, words),
        NewRow::Beyond(page) => push_page(pages, x as usize / 64, page),
    }
}

/// Takes the row of x away.
fn clear_at(pages: &mut Vec<HeldPage>, x: u32)
    requires live { has (map page_rows pages.old.items) x ≡ true }
    requires open { IsOpen (tabled pages.old) x }
    ensures long { vec_len pages.new ≡ vec_len pages.old }
    ensures gone { place_at (map page_rows pages.new.items) x ≡ None }
    ensures others { (y : ℕ) → y ≢ x → place_at (map page_rows pages.new.items) y ≡ place_at (map page_rows pages.old.items) y }
{
    let k = x as usize / 64;
    let mut page = take_page(pages, k);
    clear_row(&mut page.get_mut().rows, x as usize % 64);
    put_page(pages, k, HeldPage::Own(page));
}

fn copy_held(alloc: Global, page: &HeldPage) -> Result<HeldPage, Memory>
    ensures { IfOk result (λ same. page_rows same ≡ page_rows page.now) }
{
    match page {
        HeldPage::Empty => Ok(HeldPage::Empty),
        HeldPage::Own(page) => Ok(HeldPage::Own(copy_of(alloc, page)?)),
        HeldPage::Shared(shared) => Ok(HeldPage::Shared(Arc::try_clone(shared)?)),
    }
}

fn copy_pages(alloc: Global, pages: &[HeldPage]) -> Result<Vec<HeldPage>, Memory>
    ensures long { IfOk result (λ same. length same.items ≡ length pages.now) }
    ensures rows { IfOk result (λ same. map page_rows same.items ≡ map page_rows pages.now) }
{
    let mut same = Vec::with_capacity(alloc, pages.len())?;
    for page in pages {
        same.push(copy_held(alloc, page)?)?;
    }
    Ok(same)
}

/// Lets the rows of a page of the table's own be shared: none is copied.
fn share_rows_at(pages: &mut Vec<HeldPage>, k: usize) -> Result<(), Memory>
    requires { k < vec_len pages.old }
    ensures long { vec_len pages.new ≡ vec_len pages.old }
    ensures rows { map page_rows pages.new.items ≡ map page_rows pages.old.items }
{
    match &mut pages[k] {
        HeldPage::Own(page) => share_rows(&mut page.get_mut().rows),
        _ => Ok(()),
    }
}

/// Lets a page and its rows be shared.
fn share_at(pages: &mut Vec<HeldPage>, k: usize) -> Result<(), Memory>
    requires { k < vec_len pages.old }
    ensures long { vec_len pages.new ≡ vec_len pages.old }
    ensures rows { map page_rows pages.new.items ≡ map page_rows pages.old.items }
{
    share_rows_at(pages, k)?;
    let alloc = *pages.allocator();
    if let HeldPage::Own(page) = &pages[k] {
        let shared = shared_of(alloc, page)?;
        put_page(pages, k, HeldPage::Shared(shared));
    }
    Ok(())
}

fn share_pages(pages: &mut Vec<HeldPage>) -> Result<(), Memory>
    ensures long { vec_len pages.new ≡ vec_len pages.old }
    ensures rows { map page_rows pages.new.items ≡ map page_rows pages.old.items }
{
    for k in 0..pages.len() {
        share_at(pages, k)?;
    }
    Ok(())
}

impl RowTable {
    /// The table without rows, which takes no memory.
    pub(crate) fn new(alloc: Global) -> RowTable
        ensures { result.rows ≡ [] }
    {
        RowTable {
            pages: Vec::new(alloc),
        }
    }

    pub(crate) fn alloc(&self) -> Global {
        *self.pages.allocator()
    }

    /// No number from this on has a row.
    #[tactic(auto, using(crate::proofs::Pages::has_within))]
    pub(crate) fn len(&self) -> usize
        ensures within { (y : ℕ) → has self.now.rows y ≡ true → y < result }
        ensures most { result ≤ most }
    {
        self.pages.len() * 64
    }

    /// What has a row is below the most that there can be.
    pub(crate) fn bounded(&self)
        ensures { (y : ℕ) → has self.now.rows y ≡ true → y < most }
    {
        let _len = self.len();
    }

    /// Whether x has a row.
    pub(crate) fn has_row(&self, x: u32) -> bool
        ensures { result ≡ has self.now.rows x }
    {
        find(self.pages.as_slice(), x).is_some()
    }

    /// Whether x has a row, and y is in it.
    pub(crate) fn has(&self, x: u32, y: u32) -> bool
        ensures { result ≡ below self.now.rows x y }
    {
        match find(self.pages.as_slice(), x) {
            Some(row) => words::has(row, y),
            None => false,
        }
    }

    /// Which of the numbers from 64 k on, 64 of them, are in the row of x: bit i is the number 64 k + i.
    pub(crate) fn word(&self, x: u32, k: u32) -> u64
        ensures { (i : ℕ) → i < 64 → (bit_at result i == 1) ≡ below self.now.rows x (64 * k + i) }
    {
        match find(self.pages.as_slice(), x) {
            Some(row) => words::word(row, k),
            None => 0,
        }
    }

    /// Puts the numbers from 64 k on, 64 of them, whose rows have x into the row.
    pub(crate) fn mark(&self, k: u32, x: u32, into: &mut [u64])
        requires few { k < most }
        requires wide { k < length into.old }
        ensures here { (q : ℕ) → q / 64 ≡ k → in_row into.new q ≡ (in_row into.old q || below self.now.rows q x) }
        ensures others { (q : ℕ) → q / 64 ≢ k → in_row into.new q ≡ in_row into.old q }
        ensures long { length into.new ≡ length into.old }
    {
        mark_page(self.pages.as_slice(), k, x, into);
    }

    /// Makes the row of x the table's own, with room for so many words. It takes all the memory that
    /// writing so many will need.
    pub(crate) fn ready(&mut self, x: u32, n: usize) -> Result<(), Memory>
        requires { has self.old.rows x ≡ true }
        ensures rows { self.new.rows ≡ self.old.rows }
        ensures room { OnOk result (IsReady self.new x n) }
        ensures stays { StaysReady self.old self.new }
    {
        ready_at(&mut self.pages, x, n)
    }

    /// Puts what another row has into the row of x.
    pub(crate) fn join(&mut self, x: u32, other: &[u64])
        requires { IsReady self.old x (length other.now) }
        ensures row { (q : ℕ) → below self.new.rows x q ≡ (below self.old.rows x q || in_row other.now q) }
        ensures writes { Writes x self.old self.new }
    {
        join_at(&mut self.pages, x, other);
    }

    /// Lets the row of x have what another row has, which it has already, and nothing else.
    pub(crate) fn overwrite(&mut self, x: u32, other: &[u64])
        requires ready { IsReady self.old x 0 }
        requires less { (q : ℕ) → in_row other.now q ≡ true → below self.old.rows x q ≡ true }
        ensures row { (q : ℕ) → below self.new.rows x q ≡ in_row other.now q }
        ensures writes { Writes x self.old self.new }
    {
        overwrite_at(&mut self.pages, x, other);
    }

    /// Makes a row for x, which the table can be given without memory.
    pub(crate) fn ready_new(&mut self, x: u32, words: Vec<u64>) -> Result<NewRow, Memory>
        requires { x < most }
        ensures rows { self.new.rows ≡ self.old.rows }
        ensures fits { IfOk result (λ row. Fits self.new x row) }
        ensures words { IfOk result (λ row. new_words x row ≡ Some words.items) }
    {
        ready_new_at(&mut self.pages, x, words)
    }

    /// Gives x a row, which fits.
    pub(crate) fn put(&mut self, x: u32, row: NewRow)
        requires few { x < most }
        requires fits { Fits self.old x row }
        ensures row { place_at self.new.rows x ≡ new_words x row }
        ensures others { (y : ℕ) → y ≢ x → place_at self.new.rows y ≡ place_at self.old.rows y }
    {
        put_at(&mut self.pages, x, row);
    }

    /// Lets the row of x be taken away without memory.
    pub(crate) fn open(&mut self, x: u32) -> Result<(), Memory>
        requires { has self.old.rows x ≡ true }
        ensures rows { self.new.rows ≡ self.old.rows }
        ensures open { OnOk result (IsOpen self.new x) }
    {
        open_at(&mut self.pages, x)
    }

    /// Takes the row of x away.
    pub(crate) fn clear(&mut self, x: u32)
        requires live { has self.old.rows x ≡ true }
        requires open { IsOpen self.old x }
        ensures gone { place_at self.new.rows x ≡ None }
        ensures others { (y : ℕ) → y ≢ x → place_at self.new.rows y ≡ place_at self.old.rows y }
    {
        clear_at(&mut self.pages, x);
    }

    /// The words of the row of x; none where it has no row.
    #[tactic(auto, using(crate::proofs::Bits::past_row))]
    pub(crate) fn words(&self, x: u32) -> &[u64]
        ensures { (q : ℕ) → in_row result.now q ≡ below self.now.rows x q }
    {
        match find(self.pages.as_slice(), x) {
            Some(row) => row,
            None => &[],
        }
    }

    /// Lets all pages and rows be shared, so that a copy is one of pointers.
    pub(crate) fn share(&mut self) -> Result<(), Memory>
        ensures { self.new.rows ≡ self.old.rows }
    {
        share_pages(&mut self.pages)
    }

    /// The same rows once more.
    pub(crate) fn copy(&self) -> Result<RowTable, Memory>
        ensures { IfOk result (λ same. same.rows ≡ self.now.rows) }
    {
        let pages = copy_pages(self.alloc(), self.pages.as_slice())?;
        Ok(RowTable { pages })
    }
}
