//! A block: some items, of which contracts see no room.

ghost use Rattle.std.specs.Prelude.{◌≡◌, ◌<◌, ◌≤◌, [], ◌∷◌, Bool, Some, length, insert, filter, not, slice_get, slice_set, OnOk, OnErr, IfOk};
ghost use Rattle.std.specs.List.{remove};
ghost use Rattle.std.specs.Borrow.{Lends, sem};
ghost use Rattle.pm_pages.specs.Paged.{Decides};

use crate::copies::CopyOf;
use pm_model::Memory;
use std::alloc::Global;
use std::marker::Model;

pub(crate) struct Block<T> {
    items: Vec<T>,
}

impl<T: Drop> Drop for Block<T> {
    fn drop(self) {
        let Block { items: _ } = self;
    }
}

impl<T> Model for Block<T> {
    ghost use Rattle.std.specs.Prelude.{List};

    ghost Value = { List T };

    ghost view = { λ b. b.items.items };
}

impl<T> Block<T> {
    ghost use Rattle.pm_pages.specs.contracts.blocks.Block.{the_row};

    /// The block without items, which takes no memory.
    pub(crate) fn empty(alloc: Global) -> Self
        ensures { result ≡ [] }
    {
        Block {
            items: Vec::new(alloc),
        }
    }

    pub(crate) fn as_slice(&self) -> &[T]
        ensures { result.now ≡ self.now }
    {
        self.items.as_slice()
    }

    /// Where it takes its memory from.
    pub(crate) fn allocator(&self) -> Global {
        *self.items.allocator()
    }

    /// The item at a place, to be written.
    pub(crate) fn item_mut(&mut self, i: usize) -> &mut T
        requires { i < length self.old }
        ensures* writes_back { sem 𝓛 (Lends (the_row T.row) T.row self.entry result (slice_set self.old i)) }
        ensures value { slice_get self.old i ≡ Some result.now }
    {
        &mut self.items[i]
    }
}

impl<T: Drop> Block<T> {
    /// The block of one item.
    pub(crate) fn one(alloc: Global, item: T) -> Result<Self, Memory>
        ensures { IfOk result (λ b. b ≡ item ∷ []) }
    {
        let mut block = Block::empty(alloc);
        block.insert(0, item)?;
        Ok(block)
    }

    /// Puts an item at a place. On Memory the block is as before.
    pub(crate) fn insert(&mut self, i: usize, item: T) -> Result<(), Memory>
        requires { i ≤ length self.old }
        ensures ok { OnOk result (self.new ≡ insert self.old i item) }
        ensures err { OnErr result (self.new ≡ self.old) }
    {
        match self.items.insert(i, item) {
            Ok(()) => Ok(()),
            Err(_) => Err(Memory),
        }
    }

    /// Takes the item at a place out.
    pub(crate) fn remove(&mut self, i: usize) -> T
        requires { i < length self.old }
        ensures item { slice_get self.old i ≡ Some result }
        ensures rest { self.new ≡ remove self.old i }
    {
        self.items.remove(i)
    }

    /// Takes the items out that pass the test.
    pub(crate) fn remove_where<F: Fn(&T) -> bool>(&mut self, test: &F)
        ghost passes: { T → Bool }
        requires callable { F.IsAlwaysCallable test.now }
        requires decides { Decides F.Fn passes test.now }
        ensures { self.new ≡ filter (λ x. not (passes x)) self.old }
    {
        self.items.retain(|item| !test(item));
    }
}

impl<T: CopyOf + Drop> Block<T> {
    /// A block of the same items.
    pub(crate) fn copy(&self) -> Result<Self, Memory>
        ensures { IfOk result (λ b. b ≡ self.now) }
    {
        Block::copy_of(*self.items.allocator(), &self.items)
    }

    /// A block of the same items, with room for one more.
    pub(crate) fn copy_of(alloc: Global, items: &[T]) -> Result<Self, Memory>
        ensures { IfOk result (λ b. b ≡ items.now) }
    {
        Ok(Block {
            items: copy_items(alloc, items)?,
        })
    }
}

fn copy_items<T: CopyOf + Drop>(alloc: Global, items: &[T]) -> Result<Vec<T>, Memory>
    ensures { IfOk result (λ same. same.items ≡ items.now) }
{
    let mut same = Vec::with_capacity(alloc, items.len())?;
    for item in items {
        let again = item.copied()?;
        same.push(again)?;
    }
    Ok(same)
}
