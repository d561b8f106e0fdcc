//! The list.

ghost use Rattle.std.specs.Prelude.{◌≡◌, ◌<◌, ◌≤◌, [], ◌∷◌, ◌++◌, Bool, true, false, length, insert, filter, not, slice_get, take, drop, OnOk, OnErr, IfOk, IsOk, Some};
ghost use Rattle.std.specs.List.{remove};
ghost use Rattle.std.specs.Option.{option_copied};
ghost use Rattle.std.specs.Borrow.{sem};
ghost use Rattle.pm_pages.specs.Paged.{IsOwn, Keeps, OwnWhere, Decides};

use crate::copies::CopyOf;
use crate::items::{find, item_at, items_from, next_own, push_item, put_item, take_item};
use crate::pages::Page;
use crate::rows::{copy_pages, own_at, restart, share_pages};
use crate::tested::{own_pages, remove_passing};
use pm_model::Memory;
use std::alloc::Global;
use std::marker::Model;

/// A list in pages, which copies share. Contracts see its items, for each item whether its page is the
/// list's own, and whether the list has shared no page since it was made: then all are its own.
///
/// An item is written or taken out only where its page is the list's own, which `own_at` and
/// `own_where` see to; from then on no memory is wanted.
pub struct PageList<T> {
    pages: Vec<Page<T>>,
    starts: Vec<usize>,
    count: usize,
    room: usize,
    alone: bool,
}

impl<T: Drop> Drop for PageList<T> {
    fn drop(self) {
        let PageList {
            pages: _,
            starts: _,
            count: _,
            room: _,
            alone: _,
        } = self;
    }
}

impl<T> Model for PageList<T> {
    ghost use Rattle.pm_pages.specs.Paged.{Paged};

    ghost Value = { Paged T };

    ghost use Rattle.pm_pages.specs.Kept.{paged_of, IsKept};

    ghost view = { paged_of };

    ghost invariant = { IsKept };
}

impl<T> PageList<T> {
    ghost use Rattle.pm_pages.specs.Lending.{LendsItem};

    /// The empty list, which takes no memory. A page gets up to `room` items, best a power of two.
    pub fn new(alloc: Global, room: usize) -> Self
        ensures items { result.items ≡ [] }
        ensures alone { result.alone ≡ true }
    {
        PageList {
            pages: Vec::new(alloc),
            starts: Vec::new(alloc),
            count: 0,
            room,
            alone: true,
        }
    }

    /// How many items it has.
    pub fn len(&self) -> usize
        ensures { result ≡ length self.now.items }
    {
        self.count
    }

    /// The item at a place that there is.
    pub fn at(&self, i: usize) -> &T
        requires { i < length self.now.items }
        ensures { slice_get self.now.items i ≡ Some result.now }
    {
        let spot = find(&self.pages, &self.starts, self.room, i);
        item_at(&self.pages, spot)
    }

    /// The item at a place from 0; None exactly where there is none.
    pub fn get(&self, i: usize) -> Option<&T>
        ensures { option_copied result ≡ slice_get self.now.items i }
    {
        if i >= self.count {
            return None;
        }
        Some(self.at(i))
    }

    /// The items from a place on that stand together, so that a walk finds no place twice.
    pub fn run(&self, i: usize) -> &[T]
        requires { i < length self.now.items }
        ensures items { result.now ≡ take (length result.now) (drop i self.now.items) }
        ensures some { 0 < length result.now }
    {
        let spot = find(&self.pages, &self.starts, self.room, i);
        items_from(&self.pages, spot)
    }

    /// The item at a place, to be written.
    pub fn edit(&mut self, i: usize) -> &mut T
        requires { IsOwn self.old i }
        ensures* writes_back { sem 𝓛 (LendsItem T.row self.entry i result) }
        ensures value { slice_get self.old.items i ≡ Some result.now }
    {
        let spot = find(&self.pages, &self.starts, self.room, i);
        self.pages[spot.page].item_mut(spot.offset)
    }

    /// The first place from one on whose page is the list's own, or the length: a shared page costs one look.
    pub(crate) fn next_own(&self, from: usize) -> usize
        requires { from ≤ length self.now.items }
        ensures from { from ≤ result }
        ensures within { result ≤ length self.now.items }
        ensures own { result < length self.now.items → IsOwn self.now result }
    {
        next_own(&self.pages, &self.starts, self.room, self.count, from)
    }

    /// Where it takes its memory from.
    pub fn allocator(&self) -> Global {
        *self.pages.allocator()
    }
}

impl<T: Drop> PageList<T> {
    /// Lets copies share the pages. It takes memory for each page that the list has for itself, and
    /// none for its items. On Memory some pages may be shared.
    pub fn share(&mut self) -> Result<(), Memory>
        ensures items { self.new.items ≡ self.old.items }
        ensures alone { self.new.alone ≡ false }
    {
        self.alone = false;
        share_pages(&mut self.pages)
    }

    /// Takes the item at a place out of the list, and answers it.
    pub fn remove(&mut self, i: usize) -> T
        requires { IsOwn self.old i }
        ensures item { slice_get self.old.items i ≡ Some result }
        ensures items { self.new.items ≡ remove self.old.items i }
        ensures own { self.new.own ≡ remove self.old.own i }
        ensures alone { self.new.alone ≡ self.old.alone }
    {
        let spot = find(&self.pages, &self.starts, self.room, i);
        let item = take_item(&mut self.pages, spot);
        self.count = restart(&mut self.starts, &self.pages, self.count);
        item
    }

    /// Takes the items out that pass the test.
    pub fn remove_where<F: Fn(&T) -> bool>(&mut self, test: &F)
        ghost passes: { T → Bool }
        requires callable { F.IsAlwaysCallable test.now }
        requires decides { Decides F.Fn passes test.now }
        requires own { OwnWhere passes self.old }
        ensures items { self.new.items ≡ filter (λ x. not (passes x)) self.old.items }
        ensures alone { self.new.alone ≡ self.old.alone }
    {
        remove_passing(&mut self.pages, test);
        self.count = restart(&mut self.starts, &self.pages, self.count);
    }
}

impl<T: CopyOf + Drop> PageList<T> {
    /// The same list once more. It shares the pages that are shared, and copies the items of the
    /// others: so `share` comes first.
    pub fn copy(&self) -> Result<Self, Memory>
        ensures items { IfOk result (λ same. same.items ≡ self.now.items) }
        ensures alone { IfOk result (λ same. same.alone ≡ false) }
    {
        let alloc = *self.pages.allocator();
        Ok(PageList {
            pages: copy_pages(alloc, &self.pages)?,
            starts: Vec::from_slice(alloc, &self.starts)?,
            count: self.count,
            room: self.room,
            alone: false,
        })
    }

    /// Lets the page of the item at a place be the list's own. On Memory all is as before.
    pub fn own_at(&mut self, i: usize) -> Result<(), Memory>
        requires { i < length self.old.items }
        ensures items { self.new.items ≡ self.old.items }
        ensures keeps { Keeps self.old self.new }
        ensures ok { OnOk result (IsOwn self.new i) }
        ensures own { IsOwn self.old i → IsOk result }
        ensures sure { self.old.alone ≡ true → IsOk result }
        ensures alone { self.new.alone ≡ self.old.alone }
    {
        let spot = find(&self.pages, &self.starts, self.room, i);
        own_at(&mut self.pages, spot.page)
    }

    /// Lets the page of each item that passes the test be the list's own. On Memory some pages may
    /// be its own that weren't.
    pub fn own_where<F: Fn(&T) -> bool>(&mut self, test: &F) -> Result<(), Memory>
        ghost passes: { T → Bool }
        requires callable { F.IsAlwaysCallable test.now }
        requires decides { Decides F.Fn passes test.now }
        ensures items { self.new.items ≡ self.old.items }
        ensures keeps { Keeps self.old self.new }
        ensures ok { OnOk result (OwnWhere passes self.new) }
        ensures sure { self.old.alone ≡ true → IsOk result }
        ensures alone { self.new.alone ≡ self.old.alone }
    {
        own_pages(&mut self.pages, test)
    }

    /// Puts an item at the end. On Memory the list is as before, and the item is dropped.
    pub fn push(&mut self, item: T) -> Result<(), Memory>
        ensures items { OnOk result (self.new.items ≡ self.old.items ++ item ∷ []) }
        ensures keeps { Keeps self.old self.new }
        ensures own { OnOk result (IsOwn self.new (length self.old.items)) }
        ensures alone { self.new.alone ≡ self.old.alone }
        ensures err { OnErr result (self.new ≡ self.old) }
    {
        if self.count == usize::MAX {
            return Err(Memory);
        }
        push_item(
            &mut self.pages,
            &mut self.starts,
            self.room,
            self.count,
            item,
        )?;
        self.count += 1;
        Ok(())
    }

    /// Puts an item at a place from 0, before those that stand there and behind it; at the place
    /// `len`, at the end. On Memory the list is as before, and the item is dropped.
    pub fn insert(&mut self, i: usize, item: T) -> Result<(), Memory>
        requires { i ≤ length self.old.items }
        ensures items { OnOk result (self.new.items ≡ insert self.old.items i item) }
        ensures own { OnOk result (IsOwn self.new i) }
        ensures alone { self.new.alone ≡ self.old.alone }
        ensures err { OnErr result (self.new ≡ self.old) }
    {
        if i == self.count {
            return self.push(item);
        }
        self.insert_before(i, item)
    }

    fn insert_before(&mut self, i: usize, item: T) -> Result<(), Memory>
        requires { i < length self.old.items }
        ensures items { OnOk result (self.new.items ≡ insert self.old.items i item) }
        ensures own { OnOk result (IsOwn self.new i) }
        ensures alone { self.new.alone ≡ self.old.alone }
        ensures err { OnErr result (self.new ≡ self.old) }
    {
        if self.count == usize::MAX {
            return Err(Memory);
        }
        self.starts.reserve(1)?;
        let spot = find(&self.pages, &self.starts, self.room, i);
        put_item(&mut self.pages, self.room, spot, item)?;
        self.count = restart(&mut self.starts, &self.pages, self.count + 1);
        Ok(())
    }
}
