//! A leaf: a list of a row, the row's own or shared with copies of the row.

ghost use Rattle.std.specs.Prelude.{◌≡◌, ◌<◌, ◌≤◌, [], true, Some, length, insert, slice_get, slice_set, OnOk, OnErr, IfOk, IsOk};
ghost use Rattle.std.specs.Borrow.{Lends, sem};

use crate::blocks::Block;
use crate::copies::CopyOf;
use crate::pages::{Page, copy_page, insert_into, items, own, own_of, share};
use pm_model::Memory;
use std::alloc::Global;
use std::marker::Model;

/// A list, of which contracts see whether it is the row's own.
pub(crate) struct Leaf<T> {
    page: Page<T>,
}

impl<T: Drop> Drop for Leaf<T> {
    fn drop(self) {
        let Leaf { page: _ } = self;
    }
}

impl<T> Model for Leaf<T> {
    ghost use Rattle.pm_pages.specs.Leaves.{Leaved};
    ghost use Rattle.pm_pages.specs.Listed.{items_of, is_own};

    ghost Value = { Leaved T };

    ghost view = { λ l. record { items = items_of l.page; own = is_own l.page } };
}

impl<T> Leaf<T> {
    ghost use Rattle.pm_pages.specs.contracts.leaf.Leaf.{the_row};

    pub(crate) fn as_slice(&self) -> &[T]
        ensures { result.now ≡ self.now.items }
    {
        items(&self.page)
    }

    /// The item at a place, to be written.
    pub(crate) fn item_mut(&mut self, j: usize) -> &mut T
        requires own { self.old.own ≡ true }
        requires place { j < length self.old.items }
        ensures* writes_back { sem 𝓛 (Lends (the_row T.row) T.row self.entry result (λ x. record self.old { items = slice_set self.old.items j x })) }
        ensures value { slice_get self.old.items j ≡ Some result.now }
    {
        self.page.item_mut(j)
    }
}

impl<T: Drop> Leaf<T> {
    /// The leaf without items.
    pub(crate) fn empty(alloc: Global) -> Result<Self, Memory>
        ensures { IfOk result (λ leaf. leaf ≡ record { items = []; own = true }) }
    {
        let page = own_of(alloc, Block::empty(alloc))?;
        Ok(Leaf { page })
    }

    /// Lets it be shared. It takes memory where it wasn't.
    pub(crate) fn share(&mut self, alloc: Global) -> Result<(), Memory>
        ensures { self.new.items ≡ self.old.items }
    {
        share(alloc, &mut self.page)
    }
}

impl<T: CopyOf + Drop> Leaf<T> {
    /// Lets it be the row's own. On Memory it is as before.
    pub(crate) fn own(&mut self, alloc: Global) -> Result<(), Memory>
        ensures ok { OnOk result (self.new ≡ record self.old { own = true }) }
        ensures err { OnErr result (self.new ≡ self.old) }
        ensures sure { self.old.own ≡ true → IsOk result }
    {
        own(alloc, &mut self.page)
    }

    /// Puts an item at a place, and lets the leaf be the row's own. On Memory it is as before.
    pub(crate) fn insert(&mut self, alloc: Global, j: usize, item: T) -> Result<(), Memory>
        requires { j ≤ length self.old.items }
        ensures ok { OnOk result (self.new ≡ record { items = insert self.old.items j item; own = true }) }
        ensures err { OnErr result (self.new ≡ self.old) }
    {
        insert_into(alloc, &mut self.page, j, item)
    }
}

impl<T: CopyOf + Drop> CopyOf for Leaf<T> {
    fn copied(&self) -> Result<Leaf<T>, Memory> {
        let page = copy_page(&self.page)?;
        Ok(Leaf { page })
    }
}
