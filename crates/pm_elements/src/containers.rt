//! What an element is assigned to. It is mostly one element, whose number stands in the slot itself.

ghost use Rattle.std.specs.Prelude.{◌≡◌, [], ◌∷◌, ◌++◌, ◌<◌, ◌==◌, not, length, filter, slice_get, Some, OnOk, OnErr, IfOk};
ghost use Rattle.std.specs.List.{list_any};

use pm_model::{ElementId, Memory};
use smallvec::SmallVec;
use std::alloc::Global;
use std::marker::Model;

/// How many numbers stand in the slot itself.
const FEW: usize = 2;

/// The elements that one is assigned to, in order of assignment. Contracts see the list.
pub(crate) struct Containers {
    numbers: SmallVec<u32, FEW>,
}

impl Drop for Containers {
    fn drop(self) {
        let Containers { numbers: _ } = self;
    }
}

impl Model for Containers {
    ghost use Rattle.std.specs.Prelude.{List, ℕ};

    ghost Value = { List ℕ };

    ghost view = { λ c. c.numbers.items };
}

impl Containers {
    /// None yet, which takes no memory.
    pub(crate) fn new(alloc: Global) -> Containers
        ensures { result ≡ [] }
    {
        Containers {
            numbers: SmallVec::new(alloc),
        }
    }

    /// How many there are.
    pub(crate) fn len(&self) -> usize
        ensures { result ≡ length self.now }
    {
        self.numbers.len()
    }

    /// The one at a place that there is.
    pub(crate) fn at(&self, i: usize) -> ElementId
        requires { i < length self.now }
        ensures { slice_get self.now i ≡ Some result }
    {
        ElementId(self.numbers.as_slice()[i])
    }

    /// Their numbers.
    pub(crate) fn numbers(&self) -> &[u32]
        ensures { result.now ≡ self.now }
    {
        self.numbers.as_slice()
    }

    /// Whether y is one of them.
    pub(crate) fn has(&self, y: ElementId) -> bool
        ensures { result ≡ list_any (λ z. z == y) self.now }
    {
        self.numbers.as_slice().contains(&y.number())
    }

    /// Puts y behind the others. On Memory they are as before.
    pub(crate) fn push(&mut self, y: ElementId) -> Result<(), Memory>
        ensures ok { OnOk result (self.new ≡ self.old ++ y ∷ []) }
        ensures err { OnErr result (self.new ≡ self.old) }
    {
        match self.numbers.push(y.number()) {
            Ok(()) => Ok(()),
            Err(_) => Err(Memory),
        }
    }

    /// Takes y out.
    pub(crate) fn remove(&mut self, y: ElementId)
        ensures { self.new ≡ filter (λ z. not (z == y)) self.old }
    {
        let gone = y.number();
        self.numbers.retain(|number| *number != gone);
    }

    /// The same once more.
    pub(crate) fn copy(&self) -> Result<Containers, Memory>
        ensures { IfOk result (λ same. same ≡ self.now) }
    {
        let alloc = *self.numbers.allocator();
        let numbers = SmallVec::from_slice(alloc, self.numbers.as_slice())?;
        Ok(Containers { numbers })
    }
}
