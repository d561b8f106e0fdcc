//! A row of lists, each in a leaf of its own; the leaves stand in pages.

ghost use Rattle.std.specs.Prelude.{◌≡◌, ◌<◌, ◌≤◌, [], ◌∷◌, ◌++◌, true, false, length, insert, map, slice_get, OnOk, OnErr, IfOk, IsOk, Some};
ghost use Rattle.std.specs.Borrow.{sem};
ghost use Rattle.pm_pages.specs.Leaves.{IsOwnList, KeepsLists, held};
ghost use Rattle.pm_pages.specs.Listed.{edited, list_at};

use crate::copies::CopyOf;
use crate::leaf::Leaf;
use crate::list::PageList;
use pm_model::Memory;
use std::alloc::Global;
use std::marker::Model;

/// How many lists stand in a page.
const ROOM: usize = 32;

/// Some lists, each found by its place, which copies share one by one: a copy costs a pointer for each page of 32 lists, and a
/// change of a list copies that page and that list alone. Contracts see the lists, for each whether it may be written, and
/// whether the row has shared none of them since it was made: then what is taken out wants no memory.
pub struct ListRow<T> {
    leaves: PageList<Leaf<T>>,
    alone: bool,
}

impl<T: Drop> Drop for ListRow<T> {
    fn drop(self) {
        let ListRow {
            leaves: _,
            alone: _,
        } = self;
    }
}

impl<T> Model for ListRow<T> {
    ghost use Rattle.pm_pages.specs.Paged.{Row};

    ghost Value = { Row T };

    ghost use Rattle.pm_pages.specs.Kept.{row_of, IsRowKept};

    ghost view = { row_of };

    ghost invariant = { IsRowKept };
}

impl<T> ListRow<T> {
    ghost use Rattle.pm_pages.specs.Lending.{LendsInList};

    /// The row without lists, which takes no memory.
    pub fn new(alloc: Global) -> Self
        ensures lists { result.lists ≡ [] }
        ensures alone { result.alone ≡ true }
    {
        ListRow {
            leaves: PageList::new(alloc, ROOM),
            alone: true,
        }
    }

    /// How many lists there are.
    pub fn len(&self) -> usize
        ensures { result ≡ length self.now.lists }
    {
        self.leaves.len()
    }

    /// The list at a place that there is.
    pub fn at(&self, k: usize) -> &[T]
        requires { k < length self.now.lists }
        ensures { slice_get self.now.lists k ≡ Some result.now }
    {
        self.leaves.at(k).as_slice()
    }

    /// The item at a place of list k, to be written.
    pub fn edit(&mut self, k: usize, j: usize) -> &mut T
        requires own { IsOwnList self.old k }
        requires place { j < length (list_at self.old.lists k) }
        ensures* writes_back { sem 𝓛 (LendsInList T.row self.entry k j result) }
        ensures value { slice_get (list_at self.old.lists k) j ≡ Some result.now }
    {
        self.leaves.edit(k).item_mut(j)
    }

    /// Where it takes its memory from.
    pub fn allocator(&self) -> Global {
        self.leaves.allocator()
    }
}

/// Lets each leaf be shared. Those in shared pages are already.
fn share_leaves<T: Drop>(leaves: &mut PageList<Leaf<T>>) -> Result<(), Memory>
    ensures { map held leaves.new.items ≡ map held leaves.old.items }
{
    let alloc = leaves.allocator();
    let mut k = leaves.next_own(0);
    while k < leaves.len() {
        leaves.edit(k).share(alloc)?;
        k = leaves.next_own(k + 1);
    }
    leaves.share()
}

impl<T: CopyOf + Drop> ListRow<T> {
    /// Puts an empty list behind the others. On Memory the row is as before.
    pub fn push_empty(&mut self) -> Result<(), Memory>
        ensures lists { OnOk result (self.new.lists ≡ self.old.lists ++ [] ∷ []) }
        ensures keeps { KeepsLists self.old self.new }
        ensures err { OnErr result (self.new ≡ self.old) }
        ensures alone { self.new.alone ≡ self.old.alone }
    {
        let leaf = Leaf::empty(self.leaves.allocator())?;
        self.leaves.push(leaf)
    }

    /// Lets copies share the lists. It takes memory for each list that the row has for itself, and for
    /// its page, and none for its items. On Memory some lists may be shared.
    pub fn share(&mut self) -> Result<(), Memory>
        ensures lists { self.new.lists ≡ self.old.lists }
        ensures alone { self.new.alone ≡ false }
    {
        self.alone = false;
        share_leaves(&mut self.leaves)
    }

    /// The same row once more. It shares the lists that are shared, and copies the others: so `share`
    /// comes first.
    pub fn copy(&self) -> Result<Self, Memory>
        ensures lists { IfOk result (λ same. same.lists ≡ self.now.lists) }
        ensures alone { IfOk result (λ same. same.alone ≡ false) }
    {
        Ok(ListRow {
            leaves: self.leaves.copy()?,
            alone: false,
        })
    }

    /// Lets list k be written. On Memory the lists are as before.
    pub fn own_at(&mut self, k: usize) -> Result<(), Memory>
        requires { k < length self.old.lists }
        ensures lists { self.new.lists ≡ self.old.lists }
        ensures keeps { KeepsLists self.old self.new }
        ensures ok { OnOk result (IsOwnList self.new k) }
        ensures sure { self.old.alone ≡ true → IsOk result }
        ensures alone { self.new.alone ≡ self.old.alone }
    {
        self.leaves.own_at(k)?;
        let alloc = self.leaves.allocator();
        self.leaves.edit(k).own(alloc)
    }

    /// Puts an item at a place from 0 of list k, which may be written then. On Memory the lists are as before, and the item is
    /// dropped.
    pub fn insert(&mut self, k: usize, j: usize, item: T) -> Result<(), Memory>
        requires list { k < length self.old.lists }
        requires place { j ≤ length (list_at self.old.lists k) }
        ensures lists { OnOk result (self.new.lists ≡ edited (λ list. insert list j item) k self.old.lists) }
        ensures keeps { KeepsLists self.old self.new }
        ensures own { OnOk result (IsOwnList self.new k) }
        ensures err { OnErr result (self.new.lists ≡ self.old.lists) }
        ensures alone { self.new.alone ≡ self.old.alone }
    {
        self.leaves.own_at(k)?;
        let alloc = self.leaves.allocator();
        self.leaves.edit(k).insert(alloc, j, item)
    }
}
