//! A list in leaves, which grows at its end alone.

ghost use Rattle.std.specs.Prelude.{◌≡◌, ◌<◌, ◌≤◌, ◌+◌, ◌/◌, ◌%◌, [], ◌∷◌, ◌++◌, true, false, length, slice_get, take, drop, OnOk, OnErr, IfOk, IsOk, Some};
ghost use Rattle.std.specs.Borrow.{sem};
ghost use Rattle.std.specs.Option.{option_copied};
ghost use Rattle.pm_pages.specs.Leaves.{AreFull, KeepsLists, all_in};
ghost use Rattle.pm_pages.specs.Listed.{list_at};
ghost use Rattle.pm_pages.specs.Paged.{IsOwn, Keeps};

use crate::copies::CopyOf;
use crate::items::from;
use crate::list_row::ListRow;
use pm_model::Memory;
use std::alloc::Global;
use std::marker::Model;

/// How many items a leaf has, but for the last.
const LEAF: usize = 16;

/// A list in leaves of 16 items, which copies share; 32 leaves stand in a page. So a copy costs a pointer for each 512 items,
/// and a change of an item copies its leaf, and the pointers of its page. It grows at its end, and never gets shorter.
/// Contracts see its items, for each whether it may be written, and whether the list has shared none since it was made.
///
/// An item is written only where `own_at` has seen to it; from then on no memory is wanted.
pub struct LeafList<T> {
    row: ListRow<T>,
    count: usize,
}

impl<T: Drop> Drop for LeafList<T> {
    fn drop(self) {
        let LeafList { row: _, count: _ } = self;
    }
}

impl<T> Model for LeafList<T> {
    ghost use Rattle.pm_pages.specs.Paged.{Paged};

    ghost Value = { Paged T };

    ghost use Rattle.pm_pages.specs.Kept.{leaves_of, IsFilled};

    ghost view = { leaves_of };

    ghost invariant = { IsFilled };
}

impl<T> LeafList<T> {
    ghost use Rattle.pm_pages.specs.Lending.{LendsLeafItem};

    /// The empty list, which takes no memory.
    pub fn new(alloc: Global) -> Self
        ensures items { result.items ≡ [] }
        ensures alone { result.alone ≡ true }
    {
        LeafList {
            row: ListRow::new(alloc),
            count: 0,
        }
    }

    /// How many items it has.
    pub fn len(&self) -> usize
        ensures { result ≡ length self.now.items }
    {
        self.count
    }

    /// The item at a place that there is.
    pub fn at(&self, i: usize) -> &T
        requires { i < length self.now.items }
        ensures { slice_get self.now.items i ≡ Some result.now }
    {
        &self.row.at(i / LEAF)[i % LEAF]
    }

    /// The item at a place from 0; None exactly where there is none.
    pub fn get(&self, i: usize) -> Option<&T>
        ensures { option_copied result ≡ slice_get self.now.items i }
    {
        if i >= self.count {
            return None;
        }
        Some(self.at(i))
    }

    /// The items from a place on that stand together, so that a walk finds no place twice.
    pub fn run(&self, i: usize) -> &[T]
        requires { i < length self.now.items }
        ensures items { result.now ≡ take (length result.now) (drop i self.now.items) }
        ensures some { 0 < length result.now }
    {
        from(self.row.at(i / LEAF), i % LEAF)
    }

    /// The item at a place, to be written.
    pub fn edit(&mut self, i: usize) -> &mut T
        requires { IsOwn self.old i }
        ensures* writes_back { sem 𝓛 (LendsLeafItem T.row self.entry i result) }
        ensures value { slice_get self.old.items i ≡ Some result.now }
    {
        self.row.edit(i / LEAF, i % LEAF)
    }

    /// Where it takes its memory from.
    pub fn allocator(&self) -> Global {
        self.row.allocator()
    }
}

/// Puts a leaf behind the others where the last is full, or there is none. On Memory the row is as before.
fn open_leaf<T: CopyOf + Drop>(row: &mut ListRow<T>, count: usize) -> Result<(), Memory>
    requires full { AreFull row.old.lists }
    requires count { count ≡ length (all_in row.old.lists) }
    ensures full { AreFull row.new.lists }
    ensures items { all_in row.new.lists ≡ all_in row.old.lists }
    ensures keeps { KeepsLists row.old row.new }
    ensures last { OnOk result (length row.new.lists ≡ count / 16 + 1) }
    ensures place { OnOk result (length (list_at row.new.lists (count / 16)) ≡ count % 16) }
    ensures alone { row.new.alone ≡ row.old.alone }
{
    if row.len() == count / LEAF {
        return row.push_empty();
    }
    Ok(())
}

impl<T: CopyOf + Drop> LeafList<T> {
    /// Lets copies share the leaves. It takes memory for each leaf that the list has for itself, and
    /// none for its items. On Memory some leaves may be shared.
    pub fn share(&mut self) -> Result<(), Memory>
        ensures items { self.new.items ≡ self.old.items }
        ensures alone { self.new.alone ≡ false }
    {
        self.row.share()
    }

    /// The same list once more. It shares the leaves that are shared, and copies the items of the
    /// others: so `share` comes first.
    pub fn copy(&self) -> Result<Self, Memory>
        ensures items { IfOk result (λ same. same.items ≡ self.now.items) }
        ensures alone { IfOk result (λ same. same.alone ≡ false) }
    {
        Ok(LeafList {
            row: self.row.copy()?,
            count: self.count,
        })
    }

    /// Lets the item at a place be written. On Memory the items are as before.
    pub fn own_at(&mut self, i: usize) -> Result<(), Memory>
        requires { i < length self.old.items }
        ensures items { self.new.items ≡ self.old.items }
        ensures keeps { Keeps self.old self.new }
        ensures ok { OnOk result (IsOwn self.new i) }
        ensures sure { self.old.alone ≡ true → IsOk result }
        ensures alone { self.new.alone ≡ self.old.alone }
    {
        self.row.own_at(i / LEAF)
    }

    /// Puts an item at the end, where it may be written. On Memory the items are as before, and the item is dropped.
    pub fn push(&mut self, item: T) -> Result<(), Memory>
        ensures items { OnOk result (self.new.items ≡ self.old.items ++ item ∷ []) }
        ensures keeps { Keeps self.old self.new }
        ensures own { OnOk result (IsOwn self.new (length self.old.items)) }
        ensures alone { self.new.alone ≡ self.old.alone }
        ensures err { OnErr result (self.new.items ≡ self.old.items) }
    {
        if self.count == usize::MAX {
            return Err(Memory);
        }
        open_leaf(&mut self.row, self.count)?;
        self.row.insert(self.count / LEAF, self.count % LEAF, item)?;
        self.count += 1;
        Ok(())
    }
}
