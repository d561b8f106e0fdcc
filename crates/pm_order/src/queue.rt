//! A queue of places.

ghost use Rattle.std.specs.Prelude.{◌≡◌, ◌≤◌, ℕ, [], ◌∷◌, None, Contains, OnOk, IfSome};
ghost use Rattle.std.proofs.Props.{props};
ghost use Rattle.std.specs.BinaryHeap.{IsHeap, heap_items};
ghost use Rattle.std.specs.List.Sorted.{IsPermutation};
ghost use Rattle.std.specs.Ordering.{nat_cmp};

use pm_model::Memory;
use std::alloc::Global;
use std::cmp::Reverse;
use std::collections::BinaryHeap;
use std::marker::Model;

/// Places of which the least comes out first. Contracts see them in no particular order; one may stand there more than once.
pub(crate) struct Queue {
    heap: BinaryHeap<Reverse<usize>>,
    ghost ordered: { IsHeap (λ x y. nat_cmp y.0 x.0) (heap_items heap) } by { Prim.hlevel props },
}

impl Drop for Queue {
    fn drop(self) {
        let Queue { heap: _ } = self;
    }
}

impl Model for Queue {
    ghost use Rattle.std.specs.Prelude.{List, ℕ, map};
    ghost use Rattle.std.specs.BinaryHeap.{heap_items};

    ghost Value = { List ℕ };

    ghost view = { λ q. map (λ r. r.0) (heap_items q.heap) };
}

impl Queue {
    /// The empty queue, which takes no memory.
    pub(crate) fn new(alloc: Global) -> Queue
        ensures { result ≡ [] }
    {
        Queue {
            heap: BinaryHeap::new(alloc),
        }
    }

    /// Puts a place in.
    pub(crate) fn push(&mut self, place: usize) -> Result<(), Memory>
        ensures { OnOk result (IsPermutation (place ∷ self.old) self.new) }
    {
        self.heap.push(Reverse(place))?;
        Ok(())
    }

    /// Takes the least place out; None exactly where there is none.
    pub(crate) fn pop(&mut self) -> Option<usize>
        ensures none { result ≡ None → self.old ≡ [] }
        ensures some { IfSome result (λ k. IsPermutation self.old (k ∷ self.new)) }
        ensures least { IfSome result (λ k. (j : ℕ) → Contains self.new j → k ≤ j) }
    {
        let Reverse(place) = self.heap.pop()?;
        Some(place)
    }
}
