//! What a house stands on: a version, and the ledger, the lanes and the counts of its history, entry by entry.

ghost use Rattle.std.specs.Prelude.{◌≡◌, ◌≢◌, ◌<◌, ◌≤◌, ◌+◌, ◌-◌, ◌^◌, ◌++◌, ◌∷◌, [], ℕ, length, replicate, Some, slice_get, slice_index, IfSome, IfNone, IfOk, OnErr, MatchBool};
ghost use Rattle.pm_model.specs.Answer.{longest_history};
ghost use Rattle.pm_model.specs.History.{opening_machine};
ghost use Rattle.pm_world.specs.Restored.{IsNext};
ghost use Rattle.pm_world.specs.Seats.{count_by_seat};
ghost use Rattle.pm_house.specs.Lanes.{lane};
ghost use Rattle.pm_house.specs.Restored.{AreLanes, GoesOn, IsFooting};

use crate::home::Home;
use crate::lane::Lane;
use pm_machine::Version;
use pm_model::{Entry, Memory};
use std::alloc::Global;
use std::marker::Model;
use std::sync::ledger::{Blank, Book, Share};
use std::thread::Threads;

/// The ledger of a history, and for each seat its lane, which will go with it, and the desk's count of its entries.
#[derive(Drop)]
pub(crate) struct Footing<H: Home> {
    pub(crate) book: Book<H>,
    pub(crate) lanes: Vec<Lane<H>>,
    pub(crate) counts: Vec<u64>,
}

/// A house on its way to the end of a history. Contracts see the version that it has reached.
pub(crate) struct Restoring<V: Version, H: Home> {
    state: V,
    book: Book<H>,
    lanes: Vec<Lane<H>>,
    counts: Vec<u64>,
}

impl<V: Version, H: Home> Drop for Restoring<V, H> {
    fn drop(self) {
        let Restoring {
            state: _,
            book: _,
            lanes: _,
            counts: _,
        } = self;
    }
}

impl<V: Version, H: Home> Model for Restoring<V, H> {
    ghost use Rattle.pm_model.specs.History.{Machine};
    ghost use Rattle.pm_house.specs.Restored.{IsFooting};

    ghost Value = { Machine };

    ghost view = { λ r. V.machine r.state };

    ghost invariant = { λ r. IsFooting (V.machine r.state).history r.book.total r.lanes.items r.counts.items H.all };
}

// A lane for each seat, each with one part of the share.
fn lanes_of<H: Home>(alloc: Global, share: Share<H>, count: u32) -> Result<Vec<Lane<H>>, Memory>
    requires share { (share.parts ≡ count) × (share.amount ≡ 0) }
    requires seats { H.all ≡ count }
    ensures count { IfOk result (λ r. length r.items ≡ count) }
    ensures lanes { IfOk result (λ r. AreLanes count [] r.items) }
{
    let mut share = share;
    let mut lanes = Vec::with_capacity(alloc, count as usize)?;
    for i in 0..count {
        lanes.push(Lane::new(i, share.split_off(1, 0)))?;
    }
    Ok(lanes)
}

// So many zeros.
fn zeros(alloc: Global, count: u32) -> Result<Vec<u64>, Memory>
    ensures { IfOk result (λ r. r.items ≡ replicate count 0) }
{
    let mut zeros = Vec::with_capacity(alloc, count as usize)?;
    zeros.resize(count as usize, 0)?;
    Ok(zeros)
}

/// One more for a seat.
pub(crate) fn count(counts: &mut Vec<u64>, seat: u32)
    requires within { seat < length counts.old.items }
    requires room { slice_index counts.old.items seat ≤ longest_history }
    ensures size { length counts.new.items ≡ length counts.old.items }
    ensures seat { slice_index counts.new.items seat ≡ slice_index counts.old.items seat + 1 }
    ensures others { (s : ℕ) → s ≢ seat → slice_index counts.new.items s ≡ slice_index counts.old.items s }
{
    counts[seat as usize] += 1;
}

// One entry more of a seat, in its lane and in the book.
fn enter<H: Home>(lanes: &mut Vec<Lane<H>>, seat: u32, book: &mut Book<H>)
    requires within { seat < length lanes.old.items }
    requires room { IfSome (slice_get lanes.old.items seat) (λ l. l.share < 2 ^ 64 - 1) }
    ensures size { length lanes.new.items ≡ length lanes.old.items }
    ensures book { book.new.total ≡ book.old.total + 1 }
    ensures seat { IfSome (slice_get lanes.old.items seat) (λ l. slice_get lanes.new.items seat ≡ Some (lane l.seat (l.share + 1))) }
    ensures others { (s : ℕ) → s ≢ seat → slice_get lanes.new.items s ≡ slice_get lanes.old.items s }
{
    lanes[seat as usize].enter(book)
}

// Whether the machine accepts the entry's request. Where it does, this version goes on by it; else, and on Memory, it stays.
fn goes_on<V: Version, R: Threads + Sync>(
    rt: &R,
    version: &mut V,
    entry: &Entry,
) -> Result<bool, Memory>
    ensures taken { IfOk result (GoesOn (V.machine version.old) (V.machine version.new) entry.now) }
    ensures err { OnErr result (V.machine version.new ≡ V.machine version.old) }
{
    version.known();
    let before = version.version();
    let _reply = version.advance(rt, entry.seat, entry.nth, &entry.request)?;
    Ok(version.version() > before)
}

impl<V: Version, H: Home> Restoring<V, H> {
    /// Before any entry.
    pub(crate) fn new(alloc: Global, blank: Blank, seats: u32) -> Result<Restoring<V, H>, Memory>
        requires ledger { (blank.name ≡ H.name) × (blank.parts ≡ H.parts) }
        requires seats { (H.all ≡ seats) × (H.parts ≡ seats) }
        ensures { IfOk result (λ r. r ≡ opening_machine) }
    {
        let (book, share) = blank.open::<H>();
        let lanes = lanes_of(alloc, share, seats)?;
        let counts = zeros(alloc, seats)?;
        let state = V::opening(alloc)?;
        Ok(Restoring {
            state,
            book,
            lanes,
            counts,
        })
    }

    // The number that the next entry of a seat has. None where there is no such seat.
    #[tactic(auto, using(crate::proofs::Counting::counts_fit))]
    fn next_number(&self, seat: u32) -> Option<u64>
        ensures some { IfSome result (λ n. (seat < H.all) × (n ≡ count_by_seat seat self.now.history + 1)) }
        ensures none { IfNone result (H.all ≤ seat) }
    {
        let _most = self.state.version();
        let count = self.counts.get(seat as usize)?;
        Some(*count + 1)
    }

    /// Takes the next entry, and says whether it is one: a house of as many seats makes it there. Else all is as before.
    pub(crate) fn take<R: Threads + Sync>(&mut self, rt: &R, entry: &Entry) -> Result<bool, Memory>
        ensures taken { IfOk result (λ t. MatchBool t
            (IsNext H.all self.old.history entry.now × (self.new.history ≡ self.old.history ++ entry.now ∷ []))
            ((IsNext H.all self.old.history entry.now → ⊥) × (self.new ≡ self.old))) }
    {
        let Some(nth) = self.next_number(entry.seat) else {
            return Ok(false);
        };
        if nth != entry.nth {
            return Ok(false);
        }
        if !goes_on(rt, &mut self.state, entry)? {
            return Ok(false);
        }
        let _next = self.state.version();
        enter(&mut self.lanes, entry.seat, &mut self.book);
        count(&mut self.counts, entry.seat);
        Ok(true)
    }

    /// The version, and what of the house there is.
    pub(crate) fn into_parts(self) -> (V, Footing<H>)
        ensures version { V.machine result.0 ≡ self }
        ensures footing { IsFooting self.history result.1.book.total result.1.lanes.items result.1.counts.items H.all }
    {
        let Restoring {
            state,
            book,
            lanes,
            counts,
        } = self;
        let footing = Footing {
            book,
            lanes,
            counts,
        };
        (state, footing)
    }
}
