//! Rows of pages: one page written, put in or taken out.

ghost use Rattle.std.specs.Prelude.{◌≡◌, ◌<◌, ◌≤◌, ◌+◌, ◌++◌, ◌∷◌, [], true, Some, length, insert, slice_get, map, vec_capacity, OnOk, OnErr, IfOk, IsOk};
ghost use Rattle.std.specs.List.{remove};
ghost use Rattle.pm_pages.specs.Listed.{items_of, listed, starts_from, piece, edited, with_item, without_item, owned, own_page, IsSplit, without_empty};

use crate::blocks::Block;
use crate::copies::CopyOf;
use crate::pages::{
    Page, copy_page, halves_with, insert_into, items, own, own_of, remove_from, share,
};
use pm_model::Memory;
use std::alloc::Global;

/// Takes the item at a place of an own page out of the page.
pub(crate) fn remove_at<T: Drop>(pages: &mut Vec<Page<T>>, k: usize, j: usize) -> T
    requires page { k < length pages.old.items }
    requires place { j < length (piece items_of pages.old.items k) }
    requires own { own_page pages.old.items k ≡ true }
    ensures pages { pages.new.items ≡ edited (without_item j) k pages.old.items }
    ensures item { slice_get (piece items_of pages.old.items k) j ≡ Some result }
{
    let page = &mut pages[k];
    remove_from(page, j)
}

/// Puts an item at a place of a page.
pub(crate) fn insert_at<T: CopyOf + Drop>(
    pages: &mut Vec<Page<T>>,
    k: usize,
    j: usize,
    item: T,
) -> Result<(), Memory>
    requires page { k < length pages.old.items }
    requires place { j ≤ length (piece items_of pages.old.items k) }
    ensures pages { OnOk result (pages.new.items ≡ edited (with_item j item) k pages.old.items) }
    ensures err { OnErr result (pages.new.items ≡ pages.old.items) }
{
    let alloc = *pages.allocator();
    let page = &mut pages[k];
    insert_into(alloc, page, j, item)
}

/// Puts an item at a place of a page, and makes two pages of it.
pub(crate) fn split_at<T: CopyOf + Drop>(
    pages: &mut Vec<Page<T>>,
    k: usize,
    j: usize,
    item: T,
) -> Result<(), Memory>
    requires page { k < length pages.old.items }
    requires place { j ≤ length (piece items_of pages.old.items k) }
    ensures pages { OnOk result (IsSplit k j item pages.old.items pages.new.items) }
    ensures err { OnErr result (pages.new.items ≡ pages.old.items) }
{
    let alloc = *pages.allocator();
    let page = &pages[k];
    let (first, second) = halves_with(alloc, items(page), j, item)?;
    let head = own_of(alloc, first)?;
    let tail = own_of(alloc, second)?;
    pages.insert(k + 1, tail)?;
    let page = &mut pages[k];
    *page = head;
    Ok(())
}

/// Puts a page of one item behind the others.
pub(crate) fn push_page<T: Drop>(pages: &mut Vec<Page<T>>, item: T) -> Result<(), Memory>
    ensures ok { OnOk result (pages.new.items ≡ pages.old.items ++ Page.Own (item ∷ []) ∷ []) }
    ensures err { OnErr result (pages.new.items ≡ pages.old.items) }
{
    let alloc = *pages.allocator();
    let block = Block::one(alloc, item)?;
    pages.push(own_of(alloc, block)?)?;
    Ok(())
}

/// Takes a page without items out.
pub(crate) fn drop_empty<T: Drop>(pages: &mut Vec<Page<T>>, k: usize)
    requires { k < length pages.old.items }
    ensures { pages.new.items ≡ without_empty k pages.old.items }
{
    if items(&pages[k]).is_empty() {
        let _empty = pages.remove(k);
    }
}

/// Where the pages begin, anew; and how many items they have.
pub(crate) fn restart<T>(starts: &mut Vec<usize>, pages: &[Page<T>], most: usize) -> usize
    requires places { length pages.now ≤ vec_capacity starts.old }
    requires most { length (listed pages.now) ≤ most }
    ensures starts { starts.new.items ≡ starts_from items_of 0 pages.now }
    ensures count { result ≡ length (listed pages.now) }
{
    starts.clear();
    let mut begin = 0;
    for page in pages {
        starts.push_reserved(begin);
        begin += items(page).len();
    }
    begin
}

/// The same pages once more.
pub(crate) fn copy_pages<T: CopyOf + Drop>(
    alloc: Global,
    pages: &[Page<T>],
) -> Result<Vec<Page<T>>, Memory>
    ensures { IfOk result (λ same. map items_of same.items ≡ map items_of pages.now) }
{
    let mut same = Vec::with_capacity(alloc, pages.len())?;
    for page in pages {
        let again = copy_page(page)?;
        same.push(again)?;
    }
    Ok(same)
}

/// Lets each page be shared.
pub(crate) fn share_pages<T: Drop>(pages: &mut Vec<Page<T>>) -> Result<(), Memory>
    ensures { map items_of pages.new.items ≡ map items_of pages.old.items }
{
    let alloc = *pages.allocator();
    for k in 0..pages.len() {
        share_at(alloc, pages, k)?;
    }
    Ok(())
}

fn share_at<T: Drop>(alloc: Global, pages: &mut Vec<Page<T>>, k: usize) -> Result<(), Memory>
    requires { k < length pages.old.items }
    ensures { map items_of pages.new.items ≡ map items_of pages.old.items }
{
    let page = &mut pages[k];
    share(alloc, page)
}

/// Lets a page be the list's own.
pub(crate) fn own_at<T: CopyOf + Drop>(pages: &mut Vec<Page<T>>, k: usize) -> Result<(), Memory>
    requires { k < length pages.old.items }
    ensures pages { OnOk result (pages.new.items ≡ edited owned k pages.old.items) }
    ensures err { OnErr result (pages.new.items ≡ pages.old.items) }
    ensures own { own_page pages.old.items k ≡ true → IsOk result }
{
    let alloc = *pages.allocator();
    let page = &mut pages[k];
    own(alloc, page)
}
