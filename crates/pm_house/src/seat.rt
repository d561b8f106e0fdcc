//! A seat.

ghost use Rattle.std.specs.Prelude.{◌≡◌, ◌≢◌, length, true, IsOk, IfNone, IfSome, OnErr, IfOk, MatchBool};
ghost use Rattle.pm_machine.specs.Asking.{asks_freely};
ghost use Rattle.pm_world.specs.Seats.{count_by_seat};
ghost use Rattle.pm_house.specs.Desks.{NeverFails};
ghost use Rattle.pm_house.specs.Seated.{seated, IsSeat, Looks, Rests, ShowOneHistory, StandsApart, Submits};

use crate::desk::{Desk, Submitted};
use crate::home::Home;
use crate::house::House;
use crate::lane::Lane;
use crossbeam_utils::rule::Protocol;
use pm_machine::{Glance, Version};
use pm_model::{Keep, Memory, Reply, Request};
use pm_publish::{Glimpse, NeverBack, Sealed, Viewer};
use std::alloc::Global;
use std::marker::Model;
use std::sync::Wait;
use std::thread::Threads;

/// What a seat was told by the desk: a reply, and the version that it was made from or made.
pub struct Replied {
    pub reply: Reply,
    pub version: u64,
}

impl Drop for Replied {
    fn drop(self) {
        let Replied {
            reply: _,
            version: _,
        } = self;
    }
}

/// What a seat saw by itself.
#[derive(Drop)]
pub enum Looked {
    /// The machine's reply at this version, which the seat then shows.
    Answer { reply: Reply, version: u64 },
    /// The request is for the desk.
    GoDesk,
}

/// A caller of a house: a lane, and a viewer that holds a version, whose history is the seat's front. Up to its mark,
/// which a look leaves, the seat knows all its entries: its share counts them. Of what the front holds past the mark, it
/// was told nothing. Contracts see lane, mark and version.
pub struct Seat<V: Version, H: Home>
where
    NeverBack: Protocol<Sealed<V, H>, Glimpse>,
{
    viewer: Viewer<V, H>,
    lane: Lane<H>,
    mark: u64,
}

impl<V: Version, H: Home> Drop for Seat<V, H>
where
    NeverBack: Protocol<Sealed<V, H>, Glimpse>,
{
    fn drop(self) {
        let Seat {
            viewer: _,
            lane: _,
            mark: _,
        } = self;
    }
}

impl<V: Version, H: Home> Model for Seat<V, H>
where
    NeverBack: Protocol<Sealed<V, H>, Glimpse>,
{
    ghost use Rattle.pm_house.specs.Seated.{Seated, seated, IsSeat};

    ghost Value = { Seated };

    ghost view = { λ s. seated s.lane s.mark (V.machine s.viewer.shown) };

    ghost invariant = { λ s. IsSeat (seated s.lane s.mark (V.machine s.viewer.shown)) };
}

impl<V: Version, H: Home> Seat<V, H> {
    // A seat that knows all its entries in what the viewer holds.
    pub(crate) fn new(lane: Lane<H>, viewer: Viewer<V, H>) -> Seat<V, H>
        requires { lane.share ≡ count_by_seat lane.seat (V.machine viewer.shown).history }
        ensures { result ≡ seated lane (length (V.machine viewer.shown).history) (V.machine viewer.shown) }
    {
        let mark = viewer.shown().version();
        Seat { viewer, lane, mark }
    }

    /// The seat's number.
    pub fn number(&self) -> u32
        ensures { result ≡ self.now.lane.seat }
    {
        self.lane.seat()
    }

    /// How many entries it has made.
    pub fn made(&self) -> u64
        ensures { result ≡ self.now.lane.share }
    {
        self.lane.made()
    }

    /// The version that it holds, until it looks again or asks the desk.
    pub fn shown(&self) -> &V
        ensures { V.machine result.now ≡ self.now.machine }
    {
        self.viewer.shown()
    }

    /// Two seats of one house show one history, at any moment: what the one shows begins what the other shows. It takes no lock and
    /// no memory.
    pub fn compare(&self, other: &Seat<V, H>)
        ensures { ShowOneHistory self.now other.now }
    {
        self.viewer.compare(&other.viewer)
    }

    /// What each seat keeps: where it does nothing it is told nothing, and its share is how many of its entries the front
    /// has up to the mark.
    pub fn still(&self)
        ensures rests { Rests self.now self.now }
        ensures kept { IsSeat self.now }
    {
        self.viewer.shown().known();
    }

    // Enters what is published.
    fn enter(&mut self)
        ensures rests { Rests self.old self.new }
        ensures mark { self.new.mark ≡ self.old.mark }
    {
        self.viewer.look();
        self.viewer.shown().known();
    }

    /// A look at what is published, and the machine's answer to the request at the version that the seat then shows, or
    /// that the desk is needed, as `glance` says. An access and a question for the version take no memory; on Memory the
    /// seat has looked. Where the version that is published can't be entered, the seat goes on with the one that it
    /// holds. A `survey` may start threads, which end within the call.
    pub fn look<R: Threads + Sync>(&mut self, rt: &R, request: &Request) -> Result<Looked, Memory>
        ensures ok { IfOk result (Looks self.old self.new request.now) }
        ensures err { OnErr result (Rests self.old self.new) }
        ensures mark { self.new.mark ≡ self.old.mark }
        ensures free { asks_freely request.now.body ≡ true → IsOk result }
    {
        self.enter();
        self.shown().known();
        let version = self.shown().version();
        match self.shown().glance(rt, request) {
            Ok(Glance::Answer(reply)) => Ok(Looked::Answer { reply, version }),
            Ok(Glance::NeedsDesk) => Ok(Looked::GoDesk),
            Err(Memory) => Err(Memory),
        }
    }

    /// A look at what is published, and the version that the seat then shows.
    pub fn version(&mut self) -> u64
        ensures rests { Rests self.old self.new }
        ensures mark { self.new.mark ≡ self.old.mark }
        ensures version { result ≡ length self.new.machine.history }
    {
        self.enter();
        self.shown().version()
    }

    // The desk tells the seat its version, whose history is then its front, up to the mark. False exactly where the seat stands
    // apart from the desk: then it is as before.
    pub(crate) fn catch_up<K: Keep + Drop, R: Wait>(&mut self, rt: &R, desk: &Desk<V, K, H>) -> bool
        ensures rests { Rests self.old self.new }
        ensures there { MatchBool result
            (self.new ≡ seated self.old.lane (length desk.now.0.history) desk.now.0)
            ((self.new ≡ self.old) × StandsApart desk.now.0 self.old) }
    {
        self.viewer.shown().known();
        desk.shown().known();
        if desk.number_of(self.lane.seat()) != self.lane.made() {
            return false;
        }
        if !desk.tell(rt, &mut self.viewer) {
            return false;
        }
        self.mark = desk.shown().version();
        true
    }

    // Asks the desk, whose version the seat shows up to the mark.
    fn ask<K: Keep + Drop, R: Threads + Wait + Sync>(
        &mut self,
        rt: &R,
        alloc: Global,
        desk: &mut Desk<V, K, H>,
        request: &Request,
    ) -> Result<Replied, Memory>
        requires shown { self.old.machine ≡ desk.old.0 }
        requires mark { self.old.mark ≡ length self.old.machine.history }
        ensures ok { IfOk result (λ r. Submits self.old self.new request.now r.reply r.version) }
        ensures calm { IfOk result (λ r. NeverFails K.faults → r.reply ≢ Reply.KeepFault) }
        ensures err { OnErr result (self.new ≡ self.old) }
    {
        self.viewer.shown().known();
        let submitted = desk.accept(rt, alloc, &mut self.lane, request)?;
        desk.show(rt, &mut self.viewer);
        self.viewer.shown().known();
        let Submitted { outcome, version } = submitted;
        self.mark = version;
        Ok(Replied {
            reply: outcome.into_reply(),
            version,
        })
    }

    // Asks the desk, once it has told the seat its version. None exactly where the seat stands apart from it.
    #[tactic(auto, using(crate::proofs::Sitting::rests_then, crate::proofs::Sitting::rests_submits))]
    fn attempt<K: Keep + Drop, R: Threads + Wait + Sync>(
        &mut self,
        rt: &R,
        alloc: Global,
        desk: &mut Desk<V, K, H>,
        request: &Request,
    ) -> Result<Option<Replied>, Memory>
        ensures some { IfOk result (λ o. IfSome o (λ r. Submits self.old self.new request.now r.reply r.version)) }
        ensures none { IfOk result (λ o. IfNone o (Rests self.old self.new × StandsApart desk.old.0 self.old)) }
        ensures calm { IfOk result (λ o. IfSome o (λ r. NeverFails K.faults → r.reply ≢ Reply.KeepFault)) }
        ensures err { OnErr result (Rests self.old self.new) }
    {
        if !self.catch_up(rt, desk) {
            return Ok(None);
        }
        let replied = self.ask(rt, alloc, desk, request)?;
        Ok(Some(replied))
    }

    /// Asks the desk, and is told the version that the reply was made from or made: the seat then shows it. What the
    /// machine accepts is this seat's next entry, once and for all. `KeepFault` comes only where the keeper failed; the
    /// same request may then be submitted again. On Memory the request is no entry. A `survey` may start threads, which
    /// end within the call.
    #[tactic(auto, using(crate::proofs::Sitting::rests_then, crate::proofs::Sitting::rests_submits))]
    pub fn submit<K: Keep + Drop, R: Threads + Wait + Sync>(
        &mut self,
        rt: &R,
        alloc: Global,
        house: &House<V, K, H>,
        request: &Request,
    ) -> Result<Replied, Memory>
        ensures ok { IfOk result (λ r. Submits self.old self.new request.now r.reply r.version) }
        ensures calm { IfOk result (λ r. NeverFails K.faults → r.reply ≢ Reply.KeepFault) }
        ensures err { OnErr result (Rests self.old self.new) }
    {
        self.still();
        for _ in rt.forever() {
            let mut desk = house.desk.lock(rt);
            if let Some(replied) = self.attempt(rt, alloc, &mut desk, request)? {
                return Ok(replied);
            }
        }
        unreachable!()
    }
}

fn sent<T: Send + Drop>(_value: T) {}

fn seat_is_sent<V: Version + Send + Sync, H: Home + Send + Sync>(seat: Seat<V, H>) {
    sent(seat)
}
