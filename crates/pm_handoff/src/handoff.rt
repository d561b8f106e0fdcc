//! The queue and its two ends.

ghost use Rattle.std.specs.Prelude.{◌≡◌, ◌≤◌, ◌++◌, ◌∷◌, [], OnOk, OnErr, IfOk, IfErr, IfNone, IfSome};
ghost use mathlib.Core.List.{IsPrefix};
ghost use Rattle.pm_handoff.specs.Ends.{WasEmpty, WasFull};

use crate::rule::{Compare, Give, InOrder, Known, Numbered, Spare, Take, TwoEnds};
use crossbeam_queue::{Pass, RuledArrayQueue};
use pm_model::Memory;
use std::alloc::Global;
use std::marker::Model;
use std::mem;
use std::sync::Wait;

/// A queue between two ends, which their threads share by reference. Contracts see which queue it is, and how many items
/// may wait in it. What still waits when it is dropped goes with it.
pub struct Handoff<T: Numbered> {
    line: RuledArrayQueue<T, Known, InOrder>,
}

impl<T: Numbered + Drop> Drop for Handoff<T> {
    fn drop(self) {
        let Handoff { line: _ } = self;
    }
}

impl<T: Numbered> Model for Handoff<T> {
    ghost use Rattle.pm_handoff.specs.Ends.{Queue};

    ghost Value = { Queue };

    ghost view = { λ q. record { place = q.line.table.shared.table_id; capacity = q.line.cap } };
}

/// The end that gives. Contracts see all numbers that it gave, in order, and those that it knows to be taken.
pub struct Giver<T> {
    pass: Pass<T, Known>,
}

impl<T: Drop> Drop for Giver<T> {
    fn drop(self) {
        let Giver { pass: _ } = self;
    }
}

impl<T> Model for Giver<T> {
    ghost use Rattle.pm_handoff.specs.Ends.{End};

    ghost Value = { End };

    ghost use Rattle.pm_handoff.specs.Passes.{end_of, IsGiving};

    ghost view = { λ g. end_of g.pass };

    ghost invariant = { λ g. IsGiving g.pass };
}

/// The end that takes. Contracts see all numbers that it took, in order, and those that it knows to be given.
pub struct Taker<T> {
    pass: Pass<T, Known>,
}

impl<T: Drop> Drop for Taker<T> {
    fn drop(self) {
        let Taker { pass: _ } = self;
    }
}

impl<T> Model for Taker<T> {
    ghost use Rattle.pm_handoff.specs.Ends.{End};

    ghost Value = { End };

    ghost use Rattle.pm_handoff.specs.Passes.{end_of, IsTaking};

    ghost view = { λ t. end_of t.pass };

    ghost invariant = { λ t. IsTaking t.pass };
}

/// A new queue with its two ends, for a thread each.
#[derive(Drop)]
pub struct Ends<T: Numbered> {
    pub queue: Handoff<T>,
    pub giver: Giver<T>,
    pub taker: Taker<T>,
}

/// Why an item was not given; it comes back.
#[derive(Debug, Drop, PartialEq, Eq)]
pub enum Refused<T> {
    Full(T),
}

impl<T: Numbered> Handoff<T> {
    /// An empty queue in which this many items may wait, from 1 to 256, and its two ends. All memory that it ever wants
    /// is taken here.
    pub fn new(alloc: Global, capacity: u32) -> Result<Ends<T>, Memory>
        requires within { (1 ≤ capacity) × (capacity ≤ 256) }
        ensures queue { IfOk result (λ ends. ends.queue.capacity ≡ capacity) }
        ensures giver { IfOk result (λ ends. ends.giver ≡ record { place = ends.queue.place; given = []; taken = [] }) }
        ensures taker { IfOk result (λ ends. ends.taker ≡ record { place = ends.queue.place; given = []; taken = [] }) }
    {
        let (line, mut pass) = RuledArrayQueue::ruled(alloc, capacity as usize)?;
        let other = line.another::<TwoEnds>(&mut pass);
        Ok(Ends {
            queue: Handoff { line },
            giver: Giver { pass },
            taker: Taker { pass: other },
        })
    }

    /// Gives the item, behind all that was given before. Full comes only where as many items as may wait did wait at
    /// one moment of the call; the item comes back then, and nothing was given. It may wait for a take that has begun,
    /// and after 2^62 gifts it waits for ever.
    pub fn give<R: Wait>(&self, rt: &R, giver: &mut Giver<T>, item: T) -> Result<(), Refused<T>>
        requires made_with_it { giver.old.place ≡ self.now.place }
        ensures given { OnOk result (giver.new ≡ record giver.old { given = giver.old.given ++ T.number item ∷ [] }) }
        ensures same { OnErr result (giver.new ≡ giver.old) }
        ensures full { IfErr result (λ refused. (refused ≡ Refused.Full item) × WasFull self.now.capacity giver.old) }
    {
        match self.line.push_as::<Give, R>(rt, &mut giver.pass, item) {
            Ok(()) => Ok(()),
            Err(back) => Err(Refused::Full(back)),
        }
    }

    /// Takes the item that was given first of those that wait. None comes only where none waited at one moment of the
    /// call. It may wait for a gift that has begun.
    pub fn take<R: Wait>(&self, rt: &R, taker: &mut Taker<T>) -> Option<T>
        requires made_with_it { taker.old.place ≡ self.now.place }
        ensures taken { IfSome result (λ item. taker.new ≡ record taker.old { taken = taker.old.taken ++ T.number item ∷ [] }) }
        ensures same { IfNone result (taker.new ≡ taker.old) }
        ensures empty { IfNone result (WasEmpty taker.old) }
    {
        self.line.pop_as::<Take, R>(rt, &mut taker.pass)
    }

    /// Shows that what was taken is the first of what was given, in order. Each end then knows what the other has done
    /// so far: what it is told from then on, that the queue was full or empty, is told of a later moment.
    pub fn compare(&self, giver: &mut Giver<T>, taker: &mut Taker<T>)
        requires giver_made_with_it { giver.old.place ≡ self.now.place }
        requires taker_made_with_it { taker.old.place ≡ self.now.place }
        ensures in_order { IsPrefix taker.old.taken giver.old.given }
        ensures giver { giver.new ≡ record giver.old { taken = taker.old.taken } }
        ensures taker { taker.new ≡ record taker.old { given = giver.old.given } }
    {
        let spare = self.line.another::<Spare>(&mut giver.pass);
        let taking = mem::replace(&mut taker.pass, spare);
        self.line.absorb::<TwoEnds>(&mut giver.pass, taking);
        self.line.learn_as::<Compare>(&mut giver.pass);
        taker.pass = self.line.another::<TwoEnds>(&mut giver.pass);
    }
}
