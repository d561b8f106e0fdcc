//! The desk.

ghost use Rattle.std.specs.Prelude.{◌≡◌, ◌<◌, ◌≤◌, ◌+◌, ◌++◌, ◌∷◌, [], IsSome, length, take, option_map, OnOk, OnErr, IfOk, IfSome, MatchBool};
ghost use mathlib.Core.List.{IsPrefix};
ghost use Rattle.pm_machine.specs.Answered.{IsStep};
ghost use Rattle.pm_model.specs.Answer.{answer, longest_history};
ghost use Rattle.pm_model.specs.Causes.{HasKeepCause};
ghost use Rattle.pm_model.specs.History.{opening_machine, state_of};
ghost use Rattle.pm_world.specs.Restored.{IsMade};
ghost use Rattle.pm_world.specs.Seats.{count_by_seat};
ghost use Rattle.pm_house.specs.Lanes.{entry_by, lane as laned};
ghost use Rattle.pm_house.specs.Desks.{IsDesk, Comes, HasFaultCause, reply_told};

use crate::home::Home;
use crate::lane::Lane;
use crate::restoring::count;
use crate::sharing::ready;
use crossbeam_utils::rule::Protocol;
use left_right::Absorb;
use pm_machine::{Stepped, Version};
use pm_model::{Keep, KeepError, Memory, Reply, Request};
use pm_publish::{Glimpse, NeverBack, Publisher, Sealed, Viewer};
use std::alloc::Global;
use std::marker::Model;
use std::sync::Wait;
use std::sync::ledger::Book;
use std::thread::Threads;

/// What the desk makes of a request.
#[derive(Drop)]
pub enum Outcome {
    /// It is an entry, with the machine's reply.
    Entered(Reply),
    /// The machine doesn't accept it, and replies so.
    Answered(Reply),
    /// The machine accepts it, and the keeper has failed: it is no entry.
    Fault,
}

impl Outcome {
    /// The reply that tells it.
    pub fn into_reply(self) -> Reply
        ensures { result ≡ reply_told self }
    {
        match self {
            Outcome::Entered(reply) | Outcome::Answered(reply) => reply,
            Outcome::Fault => Reply::KeepFault,
        }
    }
}

/// What the desk answers, with the version that its reply was made from or made.
#[derive(Drop)]
pub struct Submitted {
    pub outcome: Outcome,
    pub version: u64,
}

/// Who alone accepts requests: it publishes the machine's versions, gives the entries to a keeper, holds the book of
/// all seats' shares, and counts the entries of each seat. Contracts see the version that is published and the keeper.
pub struct Desk<V: Version, K: Keep + Drop, H: Home>
where
    NeverBack: Protocol<Sealed<V, H>, Glimpse>,
    Sealed<V, H>: Absorb<Sealed<V, H>, State = V>,
{
    publisher: Publisher<V, H>,
    latest: Option<Sealed<V, H>>,
    keeper: K,
    book: Book<H>,
    counts: Vec<u64>,
}

impl<V: Version, K: Keep + Drop, H: Home> Drop for Desk<V, K, H>
where
    NeverBack: Protocol<Sealed<V, H>, Glimpse>,
    Sealed<V, H>: Absorb<Sealed<V, H>, State = V>,
{
    fn drop(self) {
        let Desk {
            publisher: _,
            latest: _,
            keeper: _,
            book: _,
            counts: _,
        } = self;
    }
}

impl<V: Version, K: Keep + Drop, H: Home> Model for Desk<V, K, H>
where
    NeverBack: Protocol<Sealed<V, H>, Glimpse>,
    Sealed<V, H>: Absorb<Sealed<V, H>, State = V>,
{
    ghost use Rattle.std.specs.Prelude.{option_map};
    ghost use Rattle.pm_model.specs.History.{Machine};
    ghost use Rattle.pm_house.specs.Desks.{IsDesk};

    ghost Value = { Machine × K };

    ghost view = { λ d. (V.machine d.publisher, d.keeper) };

    ghost invariant = { λ d. IsDesk (V.machine d.publisher) (option_map V.machine d.latest) (K.kept d.keeper) d.book.total d.counts.items H.all };
}

// Gives the last entry of this version to the keeper.
fn keep_last<V: Version, K: Keep>(keeper: &mut K, at: u64, next: &V) -> Result<(), KeepError>
    requires room { at < longest_history }
    requires last { length (V.machine next.now).history ≡ at + 1 }
    requires kept { IfSome (K.kept keeper.old) (λ es. es ≡ take at (V.machine next.now).history) }
    ensures ok { OnOk result (IfSome (K.kept keeper.new) (λ es. es ≡ (V.machine next.now).history)) }
    ensures err { OnErr result (K.kept keeper.new ≡ K.kept keeper.old) }
    ensures cause { HasKeepCause (K.faults keeper.old) (K.faults keeper.new) result }
{
    let Some(entry) = next.entry(at) else {
        unreachable!()
    };
    keeper.keep(at, entry)
}

// Before any entry there is one version, and whoever holds a version of no entry holds it.
#[tactic(auto, using(crate::proofs::Counting::empty_is_opening))]
fn shows_opening<V: Version, H: Home>(viewer: &Viewer<V, H>) -> bool
    ensures { MatchBool result (V.machine viewer.now.shown ≡ opening_machine) (0 < length (V.machine viewer.now.shown).history) }
{
    viewer.shown().known();
    viewer.shown().version() == 0
}

// Another pointer to this version, as soon as it can be counted.
fn another<V: Version, H: Home, R: Wait>(rt: &R, latest: &Sealed<V, H>) -> Sealed<V, H>
    ensures { result ≡ latest.now }
{
    for _ in rt.forever() {
        if let Ok(version) = latest.another() {
            return version;
        }
    }
    unreachable!()
}

impl<V: Version, K: Keep + Drop, H: Home> Desk<V, K, H> {
    pub(crate) fn new(
        publisher: Publisher<V, H>,
        latest: Option<Sealed<V, H>>,
        keeper: K,
        book: Book<H>,
        counts: Vec<u64>,
    ) -> Desk<V, K, H>
        requires { IsDesk (V.machine publisher) (option_map V.machine latest) (K.kept keeper) book.total counts.items H.all }
        ensures { (result.0 ≡ V.machine publisher) × (result.1 ≡ keeper) }
    {
        Desk {
            publisher,
            latest,
            keeper,
            book,
            counts,
        }
    }

    /// The version that is published.
    pub fn shown(&self) -> &V
        ensures { V.machine result.now ≡ self.now.0 }
    {
        self.publisher.shown()
    }

    /// How many entries of the history are of this seat. It takes no memory.
    #[tactic(auto, using(crate::proofs::Counting::counts_fit))]
    pub fn number_of(&self, seat: u32) -> u64
        requires { seat < H.all }
        ensures number { result ≡ count_by_seat seat self.now.0.history }
        ensures most { result ≤ longest_history }
    {
        let _most = self.shown().version();
        self.counts[seat as usize]
    }

    /// The keeper.
    pub fn keeper(&self) -> &K
        ensures { result.now ≡ self.now.1 }
    {
        &self.keeper
    }

    /// Where the keeper tells its entries, they are the history.
    pub fn kept(&self)
        ensures { IfSome (K.kept self.now.1) (λ es. es ≡ self.now.0.history) }
    {
        let _keeper = &self.keeper;
    }

    /// The history is one that a house of as many seats makes, so such a house goes on from it.
    pub fn made(&self)
        ensures { IsMade H.all self.now.0.history }
    {
        let _counts = &self.counts;
    }

    // Tells a viewer the version that is published, as soon as a pointer to it can be counted. False exactly where what it holds
    // is longer: then it is as before.
    pub(crate) fn tell<R: Wait>(&self, rt: &R, viewer: &mut Viewer<V, H>) -> bool
        ensures { MatchBool result
            ((V.machine viewer.new.shown ≡ self.now.0) × IsPrefix (V.machine viewer.old.shown).history (V.machine viewer.new.shown).history)
            ((viewer.new ≡ viewer.old) × (length self.now.0.history < length (V.machine viewer.old.shown).history)) }
    {
        match &self.latest {
            None => shows_opening(viewer),
            Some(latest) => viewer.told(another(rt, latest)),
        }
    }

    // Tells a viewer, which holds no longer version, the one that is published.
    pub(crate) fn show<R: Wait>(&self, rt: &R, viewer: &mut Viewer<V, H>)
        requires { length (V.machine viewer.old.shown).history ≤ length self.now.0.history }
        ensures { V.machine viewer.new.shown ≡ self.now.0 }
    {
        if !self.tell(rt, viewer) {
            unreachable!()
        }
    }

    // What the machine makes of the request, as the next entry of the lane.
    fn stepped<R: Threads + Sync>(
        &self,
        rt: &R,
        lane: &Lane<H>,
        request: &Request,
    ) -> Result<Stepped<V>, Memory>
        requires { lane.now.share ≡ count_by_seat lane.now.seat self.now.0.history }
        ensures { IfOk result (IsStep V.machine self.now.0 (entry_by lane.now request.now)) }
    {
        let nth = self.number_of(lane.seat()) + 1;
        self.shown().step(rt, lane.seat(), nth, request)
    }

    // Publishes the next version, once its last entry is kept. All memory is taken before the keeper is asked.
    fn publish<R: Wait>(
        &mut self,
        rt: &R,
        alloc: Global,
        lane: &mut Lane<H>,
        request: &Request,
        next: V,
    ) -> Result<(), KeepError>
        requires share { lane.old.share ≡ count_by_seat lane.old.seat self.old.0.history }
        requires accepted { IsSome (answer (state_of self.old.0) request.now).next }
        requires grown { (V.machine next).history ≡ self.old.0.history ++ entry_by lane.old request.now ∷ [] }
        ensures ok { OnOk result ((self.new.0 ≡ V.machine next) × (lane.new ≡ laned lane.old.seat (lane.old.share + 1))) }
        ensures err { OnErr result ((self.new.0 ≡ self.old.0) × (lane.new ≡ lane.old)) }
        ensures cause { HasKeepCause (K.faults self.old.1) (K.faults self.new.1) result }
    {
        let _made = self.number_of(lane.seat());
        self.shown().known();
        let at = self.shown().version();
        let Ok(next) = ready(alloc, next) else {
            return Err(KeepError::Memory);
        };
        let _next = next.version().version();
        keep_last(&mut self.keeper, at, next.version())?;
        self.latest = Some(self.publisher.publish(rt, next));
        lane.enter(&mut self.book);
        count(&mut self.counts, lane.seat());
        Ok(())
    }

    // What comes of a request that the machine accepts by this reply.
    fn enter<R: Wait>(
        &mut self,
        rt: &R,
        alloc: Global,
        lane: &mut Lane<H>,
        request: &Request,
        next: V,
        reply: Reply,
    ) -> Result<Outcome, Memory>
        requires share { lane.old.share ≡ count_by_seat lane.old.seat self.old.0.history }
        requires step { IsStep V.machine self.old.0 (entry_by lane.old request.now) (Stepped.Accepted next reply) }
        ensures outcome { IfOk result (Comes self.old.0 self.new.0 lane.old lane.new request.now) }
        ensures cause { IfOk result (HasFaultCause (K.faults self.old.1) (K.faults self.new.1)) }
        ensures err { OnErr result ((self.new.0 ≡ self.old.0) × (lane.new ≡ lane.old)) }
        ensures calm { OnErr result (K.faults self.new.1 ≡ K.faults self.old.1) }
    {
        match self.publish(rt, alloc, lane, request, next) {
            Ok(()) => Ok(Outcome::Entered(reply)),
            Err(KeepError::Failed) => Ok(Outcome::Fault),
            Err(KeepError::Memory) => Err(Memory),
        }
    }

    // What comes of the request.
    fn taken<R: Threads + Wait + Sync>(
        &mut self,
        rt: &R,
        alloc: Global,
        lane: &mut Lane<H>,
        request: &Request,
    ) -> Result<Outcome, Memory>
        requires { lane.old.share ≡ count_by_seat lane.old.seat self.old.0.history }
        ensures outcome { IfOk result (Comes self.old.0 self.new.0 lane.old lane.new request.now) }
        ensures cause { IfOk result (HasFaultCause (K.faults self.old.1) (K.faults self.new.1)) }
        ensures err { OnErr result ((self.new.0 ≡ self.old.0) × (lane.new ≡ lane.old)) }
        ensures calm { OnErr result (K.faults self.new.1 ≡ K.faults self.old.1) }
    {
        match self.stepped(rt, lane, request) {
            Ok(Stepped::Answered(reply)) => Ok(Outcome::Answered(reply)),
            Ok(Stepped::Accepted(next, reply)) => self.enter(rt, alloc, lane, request, next, reply),
            Err(Memory) => Err(Memory),
        }
    }

    /// The machine's answer to a request of a lane, whose share is how many entries of its seat the history has. Where
    /// the machine accepts it, the history gets it as the lane's next entry, unless the keeper fails in this call. Then,
    /// and where the machine doesn't accept it, all is as before, and so it is on Memory, which comes before the keeper
    /// has kept the entry or not at all. A `survey` may start threads, which end within the call.
    pub fn accept<R: Threads + Wait + Sync>(
        &mut self,
        rt: &R,
        alloc: Global,
        lane: &mut Lane<H>,
        request: &Request,
    ) -> Result<Submitted, Memory>
        requires { lane.old.share ≡ count_by_seat lane.old.seat self.old.0.history }
        ensures outcome { IfOk result (λ s. Comes self.old.0 self.new.0 lane.old lane.new request.now s.outcome) }
        ensures cause { IfOk result (λ s. HasFaultCause (K.faults self.old.1) (K.faults self.new.1) s.outcome) }
        ensures version { IfOk result (λ s. s.version ≡ length self.new.0.history) }
        ensures err { OnErr result ((self.new.0 ≡ self.old.0) × (lane.new ≡ lane.old)) }
        ensures calm { OnErr result (K.faults self.new.1 ≡ K.faults self.old.1) }
    {
        let outcome = self.taken(rt, alloc, lane, request)?;
        let version = self.shown().version();
        Ok(Submitted { outcome, version })
    }
}
