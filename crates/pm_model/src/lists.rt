//! A list that hides its room from contracts.

ghost use Rattle.std.specs.Prelude.{◌≡◌, [], ◌∷◌, ◌++◌, ◌<◌, ◌≤◌, length, insert, OnOk, OnErr, IfOk, slice_get, Some};
ghost use Rattle.std.specs.List.{remove};
ghost use Rattle.std.specs.Option.{option_copied};
ghost use Rattle.std.specs.Fn.{CalledAt};
ghost use Rattle.std.specs.List.Retain.{IsFiltered};

use crate::elements::ElementId;
use crate::memory::Memory;
use crate::names::Name;
use std::alloc::Global;
use std::marker::Model;

/// A list. Contracts see the list alone, and not the room that it has.
pub struct ItemList<T> {
    items: Vec<T>,
}

impl<T: Drop> Drop for ItemList<T> {
    fn drop(self) {
        let ItemList { items: _ } = self;
    }
}

impl<T> Model for ItemList<T> {
    ghost use Rattle.std.specs.Prelude.{List};

    ghost Value = { List T };

    ghost view = { λ a. a.items.items };
}

impl<T> ItemList<T> {
    /// The empty list, which takes no memory.
    pub fn new(alloc: Global) -> Self
        ensures { result ≡ [] }
    {
        ItemList {
            items: Vec::new(alloc),
        }
    }

    /// The empty list with room for so many items and no more.
    pub fn with_room(alloc: Global, room: usize) -> Result<Self, Memory>
        ensures { IfOk result (λ list. list ≡ []) }
    {
        match Vec::with_capacity(alloc, room) {
            Ok(items) => Ok(ItemList { items }),
            Err(_) => Err(Memory),
        }
    }

    /// How many items it has.
    pub fn len(&self) -> usize
        ensures { result ≡ length self.now }
    {
        self.items.len()
    }

    /// The item at a place from 0; None exactly where there is none.
    pub fn get(&self, i: usize) -> Option<&T>
        ensures { option_copied result ≡ slice_get self.now i }
    {
        self.items.get(i)
    }

    /// The item at a place that there is.
    pub fn at(&self, i: usize) -> &T
        requires { i < length self.now }
        ensures { slice_get self.now i ≡ Some result.now }
    {
        &self.items[i]
    }

    /// Where it takes its memory from.
    pub fn allocator(&self) -> Global {
        *self.items.allocator()
    }

    /// The items as a slice.
    pub fn as_slice(&self) -> &[T]
        ensures { result.now ≡ self.now }
    {
        self.items.as_slice()
    }

    /// Puts an item at the end. On Memory the list is as before.
    pub fn push(&mut self, item: T) -> Result<(), Memory>
    where
        T: Drop,
        ensures ok { OnOk result (self.new ≡ self.old ++ item ∷ []) }
        ensures err { OnErr result (self.new ≡ self.old) }
    {
        match self.items.push(item) {
            Ok(()) => Ok(()),
            Err(_) => Err(Memory),
        }
    }

    /// Puts an item at a place from 0, before those that stand there and behind it; at the place
    /// `len`, at the end. On Memory the list is as before.
    pub fn insert(&mut self, i: usize, item: T) -> Result<(), Memory>
    where
        T: Drop,
        requires { i ≤ length self.old }
        ensures ok { OnOk result (self.new ≡ insert self.old i item) }
        ensures err { OnErr result (self.new ≡ self.old) }
    {
        match self.items.insert(i, item) {
            Ok(()) => Ok(()),
            Err(_) => Err(Memory),
        }
    }

    /// Takes the item at a place that there is out of the list, and answers it.
    pub fn remove(&mut self, i: usize) -> T
    where
        T: Drop,
        requires { i < length self.old }
        ensures item { slice_get self.old i ≡ Some result }
        ensures rest { self.new ≡ remove self.old i }
    {
        self.items.remove(i)
    }

    /// Keeps the items that pass the test, in their order.
    pub fn retain<F: FnMut(&T) -> bool>(&mut self, f: F)
    where
        T: Drop,
        requires { F.IsAlwaysCallable f }
        ensures { IsFiltered (CalledAt F.FnMut) f self.old self.new }
    {
        self.items.retain(f);
    }
}

impl<T: Copy> ItemList<T> {
    /// The same list once more.
    pub fn copy(&self) -> Result<Self, Memory>
        ensures { IfOk result (λ same. same ≡ self.now) }
    {
        let alloc = *self.items.allocator();
        match Vec::from_slice(alloc, self.items.as_slice()) {
            Ok(items) => Ok(ItemList { items }),
            Err(_) => Err(Memory),
        }
    }
}

/// A list of names.
pub type NameList = ItemList<Name>;

/// A list of elements.
pub type PlaceList = ItemList<ElementId>;

/// The live policy classes, by rising number.
pub type ClassList = ItemList<ElementId>;

/// A list of users.
pub type UserList = ItemList<ElementId>;
