//! A value behind a pointer, of which contracts see the value alone. So what has a value or shares it takes two words.

ghost use Rattle.std.specs.Prelude.{◌≡◌, IfOk};
ghost use Rattle.std.specs.Borrow.{Lends, sem};

use pm_model::Memory;
use std::alloc::Global;
use std::marker::Model;

/// A value of one's own, on the heap.
pub struct Owned<T> {
    place: Box<T>,
}

impl<T: Drop> Drop for Owned<T> {
    fn drop(self) {
        let Owned { place: _ } = self;
    }
}

impl<T> Model for Owned<T> {
    ghost Value = { T };

    ghost view = { λ o. o.place.value };
}

impl<T> Owned<T> {
    ghost use Rattle.pm_pages.specs.contracts.owned.Owned.{the_row};

    /// The value, to be read.
    pub fn get(&self) -> &T
        ensures { result.now ≡ self.now }
    {
        &*self.place
    }

    /// The value, to be written.
    pub fn get_mut(&mut self) -> &mut T
        ensures* writes_back { sem 𝓛 (Lends (the_row T.row) T.row self.entry result (λ x. x)) }
        ensures value { self.old ≡ result.now }
    {
        &mut *self.place
    }
}

impl<T: Drop> Owned<T> {
    /// The value on the heap. On Memory it is dropped.
    pub fn new(alloc: Global, value: T) -> Result<Self, Memory>
        ensures { IfOk result (λ same. same ≡ value) }
    {
        let place = Box::new(alloc, value)?;
        Ok(Owned { place })
    }
}
