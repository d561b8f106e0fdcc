//! One item of a row of pages: found, written, put in and taken out, by its place in the list.

ghost use Rattle.std.specs.Prelude.{◌≡◌, ℕ, ◌<◌, ◌≤◌, ◌+◌, ◌++◌, ◌∷◌, [], true, Some, length, insert, slice_get, drop, OnOk, OnErr};
ghost use Rattle.std.specs.List.{remove};
ghost use Rattle.pm_pages.specs.Listed.{items_of, listed, marks, IsOwnAt, KeepsOwn, own_page, all_own, starts_from, piece, IsSpot};

use crate::copies::CopyOf;
use crate::pages::{Page, items};
use crate::places::page_of;
use crate::rows::{drop_empty, insert_at, push_page, remove_at, split_at};
use pm_model::Memory;

/// Where an item stands.
#[derive(Clone, Copy)]
pub(crate) struct Spot {
    pub page: usize,
    pub offset: usize,
}

/// Where item i stands.
pub(crate) fn find<T>(pages: &[Page<T>], starts: &[usize], room: usize, i: usize) -> Spot
    requires placed { starts.now ≡ starts_from items_of 0 pages.now }
    requires within { i < length (listed pages.now) }
    ensures spot { IsSpot items_of pages.now i result.page result.offset }
    ensures page { result.page < length pages.now }
    ensures offset { result.offset < length (piece items_of pages.now result.page) }
{
    let page = page_of(starts, room, i);
    Spot {
        page,
        offset: i - starts[page],
    }
}

/// The item at a spot.
pub(crate) fn item_at<T>(pages: &[Page<T>], spot: Spot) -> &T
    requires page { spot.page < length pages.now }
    requires offset { spot.offset < length (piece items_of pages.now spot.page) }
    ensures { slice_get (piece items_of pages.now spot.page) spot.offset ≡ Some result.now }
{
    let page = &pages[spot.page];
    &items(page)[spot.offset]
}

pub(crate) fn from<T>(items: &[T], start: usize) -> &[T]
    requires { start ≤ length items.now }
    ensures { result.now ≡ drop start items.now }
{
    let (_before, behind) = items.split_at(start);
    behind
}

/// The items of a page from a spot on.
pub(crate) fn items_from<T>(pages: &[Page<T>], spot: Spot) -> &[T]
    requires page { spot.page < length pages.now }
    requires offset { spot.offset < length (piece items_of pages.now spot.page) }
    ensures { result.now ≡ drop spot.offset (piece items_of pages.now spot.page) }
{
    let page = &pages[spot.page];
    from(items(page), spot.offset)
}

/// How many items from a spot on are passed by: 0 where its page is the list's own, else those to the end of the page.
fn passed<T>(pages: &[Page<T>], spot: Spot) -> usize
    requires page { spot.page < length pages.now }
    requires offset { spot.offset < length (piece items_of pages.now spot.page) }
    ensures { result ≡ 0 → own_page pages.now spot.page ≡ true }
{
    let page = &pages[spot.page];
    match page {
        Page::Own(_) => 0,
        Page::Shared(_) => items(page).len() - spot.offset,
    }
}

/// The first place from one on whose page is the list's own, or the number of items: a shared page costs one look.
pub(crate) fn next_own<T>(
    pages: &[Page<T>],
    starts: &[usize],
    room: usize,
    count: usize,
    from: usize,
) -> usize
    requires placed { starts.now ≡ starts_from items_of 0 pages.now }
    requires count { count ≡ length (listed pages.now) }
    requires from { from ≤ count }
    ensures from { from ≤ result }
    ensures within { result ≤ count }
    ensures own { result < count → IsOwnAt pages.now result }
{
    let mut i = from;
    while i < count {
        let spot = find(pages, starts, room, i);
        let more = passed(pages, spot);
        if more == 0 {
            return i;
        }
        i = i.saturating_add(more);
    }
    count
}

/// Takes an item of an own page out. A page without items goes.
pub(crate) fn take_item<T: Drop>(pages: &mut Vec<Page<T>>, spot: Spot) -> T
    requires page { spot.page < length pages.old.items }
    requires offset { spot.offset < length (piece items_of pages.old.items spot.page) }
    requires own { own_page pages.old.items spot.page ≡ true }
    ensures item { slice_get (piece items_of pages.old.items spot.page) spot.offset ≡ Some result }
    ensures items { (i : ℕ) → IsSpot items_of pages.old.items i spot.page spot.offset → listed pages.new.items ≡ remove (listed pages.old.items) i }
    ensures marks { (i : ℕ) → IsSpot items_of pages.old.items i spot.page spot.offset → marks pages.new.items ≡ remove (marks pages.old.items) i }
    ensures pages { length pages.new.items ≤ length pages.old.items }
    ensures stays { all_own pages.old.items ≡ true → all_own pages.new.items ≡ true }
{
    let item = remove_at(pages, spot.page, spot.offset);
    drop_empty(pages, spot.page);
    item
}

/// Puts an item at a spot. A page with no room becomes two.
pub(crate) fn put_item<T: CopyOf + Drop>(
    pages: &mut Vec<Page<T>>,
    room: usize,
    spot: Spot,
    item: T,
) -> Result<(), Memory>
    requires page { spot.page < length pages.old.items }
    requires offset { spot.offset < length (piece items_of pages.old.items spot.page) }
    ensures items { (i : ℕ) → IsSpot items_of pages.old.items i spot.page spot.offset → OnOk result (listed pages.new.items ≡ insert (listed pages.old.items) i item) }
    ensures own { (i : ℕ) → IsSpot items_of pages.old.items i spot.page spot.offset → OnOk result (IsOwnAt pages.new.items i) }
    ensures pages { length pages.new.items ≤ length pages.old.items + 1 }
    ensures err { OnErr result (pages.new.items ≡ pages.old.items) }
    ensures stays { all_own pages.old.items ≡ true → all_own pages.new.items ≡ true }
{
    let page = &pages[spot.page];
    if items(page).len() < room {
        return insert_at(pages, spot.page, spot.offset, item);
    }
    split_at(pages, spot.page, spot.offset, item)
}

/// Puts an item behind the others, in the last page.
fn push_last<T: CopyOf + Drop>(pages: &mut Vec<Page<T>>, item: T) -> Result<(), Memory>
    requires { 0 < length pages.old.items }
    ensures items { OnOk result (listed pages.new.items ≡ listed pages.old.items ++ item ∷ []) }
    ensures keeps { KeepsOwn pages.old.items pages.new.items }
    ensures own { OnOk result (IsOwnAt pages.new.items (length (listed pages.old.items))) }
    ensures starts { starts_from items_of 0 pages.new.items ≡ starts_from items_of 0 pages.old.items }
    ensures err { OnErr result (pages.new.items ≡ pages.old.items) }
    ensures stays { all_own pages.old.items ≡ true → all_own pages.new.items ≡ true }
{
    let k = pages.len() - 1;
    let page = &pages[k];
    let end = items(page).len();
    insert_at(pages, k, end, item)
}

/// Whether the last page has room for one more.
fn has_room<T>(pages: &[Page<T>], room: usize) -> bool
    ensures { result ≡ true → 0 < length pages.now }
{
    match pages.last() {
        Some(page) => items(page).len() < room,
        None => false,
    }
}

/// Puts an item behind the others, in a page of its own.
fn push_new<T: Drop>(
    pages: &mut Vec<Page<T>>,
    starts: &mut Vec<usize>,
    count: usize,
    item: T,
) -> Result<(), Memory>
    requires placed { starts.old.items ≡ starts_from items_of 0 pages.old.items }
    requires count { count ≡ length (listed pages.old.items) }
    ensures items { OnOk result (listed pages.new.items ≡ listed pages.old.items ++ item ∷ []) }
    ensures keeps { KeepsOwn pages.old.items pages.new.items }
    ensures own { OnOk result (IsOwnAt pages.new.items (length (listed pages.old.items))) }
    ensures placed { starts.new.items ≡ starts_from items_of 0 pages.new.items }
    ensures err { OnErr result (pages.new.items ≡ pages.old.items) }
    ensures stays { all_own pages.old.items ≡ true → all_own pages.new.items ≡ true }
{
    starts.reserve(1)?;
    push_page(pages, item)?;
    starts.push_reserved(count);
    Ok(())
}

/// Puts an item behind the others.
pub(crate) fn push_item<T: CopyOf + Drop>(
    pages: &mut Vec<Page<T>>,
    starts: &mut Vec<usize>,
    room: usize,
    count: usize,
    item: T,
) -> Result<(), Memory>
    requires placed { starts.old.items ≡ starts_from items_of 0 pages.old.items }
    requires count { count ≡ length (listed pages.old.items) }
    ensures items { OnOk result (listed pages.new.items ≡ listed pages.old.items ++ item ∷ []) }
    ensures keeps { KeepsOwn pages.old.items pages.new.items }
    ensures own { OnOk result (IsOwnAt pages.new.items (length (listed pages.old.items))) }
    ensures placed { starts.new.items ≡ starts_from items_of 0 pages.new.items }
    ensures err { OnErr result (pages.new.items ≡ pages.old.items) }
    ensures stays { all_own pages.old.items ≡ true → all_own pages.new.items ≡ true }
{
    if has_room(pages, room) {
        return push_last(pages, item);
    }
    push_new(pages, starts, count, item)
}
