//! Lists of places.

ghost use Rattle.std.specs.Prelude.{◌≡◌, [], ◌∷◌, ◌++◌, OnOk};

use pm_model::Memory;
use smallvec::SmallVec;
use std::alloc::Global;
use std::marker::Model;

/// How many places stand in a list itself.
const FEW: usize = 2;

/// Places in an order. Few of them take no memory of their own. Contracts see the list.
pub(crate) struct PlaceList {
    places: SmallVec<usize, FEW>,
}

impl Drop for PlaceList {
    fn drop(self) {
        let PlaceList { places: _ } = self;
    }
}

impl Model for PlaceList {
    ghost use Rattle.std.specs.Prelude.{List, ℕ};

    ghost Value = { List ℕ };

    ghost view = { λ l. l.places.items };
}

impl PlaceList {
    /// The empty list, which takes no memory.
    pub(crate) fn new(alloc: Global) -> PlaceList
        ensures { result ≡ [] }
    {
        PlaceList {
            places: SmallVec::new(alloc),
        }
    }

    /// The places as a slice.
    pub(crate) fn as_slice(&self) -> &[usize]
        ensures { result.now ≡ self.now }
    {
        self.places.as_slice()
    }

    /// Puts a place at the end.
    pub(crate) fn push(&mut self, place: usize) -> Result<(), Memory>
        ensures { OnOk result (self.new ≡ self.old ++ place ∷ []) }
    {
        match self.places.push(place) {
            Ok(()) => Ok(()),
            Err(_) => Err(Memory),
        }
    }
}
