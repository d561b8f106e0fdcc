//! A worker's connections, of which those have a turn that the system tells to be ready.

ghost use Rattle.std.specs.Prelude.{◌≡◌, ◌⊎◌, ℕ, None, Some, IfOk, IfSome, IfNone, IsTrue, true, false};
ghost use Rattle.std.specs.Arc.{arc_value};
ghost use Rattle.std.specs.List.{list_any};
ghost use Rattle.std.specs.Time.{instant_nanos};
ghost use Rattle.slab.specs.Slab.{get};
ghost use Rattle.mio.specs.Events.{items};
ghost use Rattle.pm_server.specs.KeySets.{HasAddedAll, is_told};
ghost use Rattle.pm_worker.specs.Feeding.{number_out};
ghost use Rattle.pm_worker.specs.declared.feeds.Next.TheVariants as next;

use crate::arrivals::Arrival;
use crate::errors::OpenError;
use crate::keys::{Keys, MOST};
use crate::watch::Watch;
use mio::{Events, Interest, Poll, Token, Waker};
use pm_handoff::{Handoff, Taker};
use pm_io::MioLink;
use pm_machine::Version;
use pm_worker::{Conn, Feed, Next, Served, Turn};
use slab::Slab;
use std::alloc::Global;
use std::marker::Model;
use std::mem;
use std::net::Net;
use std::sync::atomic::{AtomicU64, Ordering};
use std::sync::{Arc, Wait};
use std::time::{Clock, Duration, Instant};

// What the waker's events are told by: no connection has this key.
const WAKE: usize = MOST;

// For how many seconds a connection may be silent, and how often that is looked at.
const SILENCE: u64 = 60;

const LOOK: u64 = 5;

/// A connection that is to have no turn now, and the time of its last one.
#[derive(Drop)]
pub struct Resting {
    pub conn: Conn<MioLink>,
    pub since: Instant,
}

/// The connections of one worker: those that the acceptor has left for it, each of which has a turn whenever the system
/// tells that its stream is ready, or that its last turn left something to do. One that has had none for 60 seconds, since
/// it has neither sent a byte nor taken one, is closed. It stops only where the system's polling fails, or the server is at
/// its end.
pub struct PollFeed<'a, R> {
    rt: &'a R,
    alloc: Global,
    watch: &'a Watch,
    // How many of its places are taken, as the acceptor sees it.
    held: Arc<AtomicU64>,
    queue: Arc<Handoff<Arrival>>,
    taker: Taker<Arrival>,
    poll: Poll,
    events: Events<Global>,
    conns: Slab<Resting>,
    // Those that are to have a turn: before the system is asked again, and afterwards.
    round: Keys,
    later: Keys,
    // Whether the acceptor may have left some that were not taken yet.
    called: bool,
    begun: bool,
    // The time of this round, and when silent connections were looked for last.
    time: Instant,
    looked: Instant,
    out: Option<u64>,
    stopped: bool,
    // What the system and the watch told when they were asked last.
    failed: bool,
    over: bool,
}

impl<'a, R> Model for PollFeed<'a, R> {
    ghost use Rattle.std.specs.Prelude.{◌≡◌};
    ghost use Rattle.std.specs.Arc.{arc_value};
    ghost use Rattle.std.specs.Time.{instant_nanos};
    ghost use Rattle.pm_server.specs.Polled.{Polled, HasPlaces};
    ghost use Rattle.pm_server.specs.declared.poll_feed.Resting.{Resting};

    ghost Value = { Polled Resting };

    ghost view = { λ f. record { conns = f.conns; round = f.round; later = f.later; out = f.out; stopped = f.stopped; failed = f.failed; over = f.over; taker = f.taker; time = instant_nanos f.time } };

    ghost invariant = { λ f. (f.taker.place ≡ (arc_value f.queue).place) × HasPlaces f.out f.conns };
}

impl<'a, R> Drop for PollFeed<'a, R> {
    fn drop(self) {
        let PollFeed {
            rt: _,
            alloc: _,
            watch: _,
            held: _,
            queue: _,
            taker: _,
            poll: _,
            events: _,
            conns: _,
            round: _,
            later: _,
            called: _,
            begun: _,
            time: _,
            looked: _,
            out: _,
            stopped: _,
            failed: _,
            over: _,
        } = self;
    }
}

// Adds the keys that the events tell, and says whether the waker has told one.
fn gather(events: &Events<Global>, ready: &mut Keys) -> bool
    ensures woken { result ≡ list_any (is_told 1024) (items events.now) }
    ensures ready { HasAddedAll ready.old ready.new (items events.now) }
{
    let mut woken = false;
    for event in events.iter() {
        let Token(key) = event.token();
        ready.add(key);
        woken |= key == WAKE;
    }
    woken
}

impl<'a, R: Wait + Clock> PollFeed<'a, R> {
    ghost use Rattle.pm_server.specs.KeySets.{HasKey};
    ghost use Rattle.pm_server.specs.Polled.{IsFirst, IsSilent, Stays, TakesOut, TakesNone};

    // A feed with no connections, and what wakes it.
    pub(crate) fn new<N: Net>(
        rt: &'a R,
        net: &N,
        alloc: Global,
        watch: &'a Watch,
        held: Arc<AtomicU64>,
        queue: Arc<Handoff<Arrival>>,
        taker: Taker<Arrival>,
    ) -> Result<(PollFeed<'a, R>, Waker), OpenError>
        requires { taker.place ≡ (arc_value queue).place }
        ensures { IfOk result (λ made. (made.0.out ≡ None) × (made.0.taker ≡ taker)) }
    {
        let poll = Poll::new(net)?;
        let waker = Waker::new(poll.registry(), Token(WAKE))?;
        let events = Events::with_capacity(alloc, MOST + 1)?;
        let conns = Slab::with_capacity(alloc, MOST)?;
        let time = Instant::now(rt)?;
        let feed = PollFeed {
            rt,
            alloc,
            watch,
            held,
            queue,
            taker,
            poll,
            events,
            conns,
            round: Keys::none(),
            later: Keys::none(),
            called: false,
            begun: false,
            time,
            looked: time,
            out: None,
            stopped: false,
            failed: false,
            over: false,
        };
        Ok((feed, waker))
    }

    // Takes in a connection, and says so. It is closed where there is no place or no memory for it, or the system
    // doesn't watch it.
    #[tactic(auto, using(crate::proofs::Staying::stays_all, crate::proofs::Staying::stays_beside))]
    fn take_in(&mut self, arrival: Arrival) -> bool
        requires { self.old.out ≡ None }
        ensures same { (self.new.out ≡ self.old.out) × (self.new.stopped ≡ self.old.stopped) }
        ensures stay { Stays (λ r. instant_nanos r.since) self.old self.new }
    {
        if self.conns.len() >= MOST {
            return false;
        }
        let Arrival { number, mut stream } = arrival;
        let token = Token(self.conns.vacant_key());
        let ready = Interest::READABLE | Interest::WRITABLE;
        let registry = self.poll.registry();
        if registry.register(&mut stream, token, ready).is_err() {
            return false;
        }
        let Ok(conn) = Conn::new(self.alloc, number, MioLink::new(stream)) else {
            return false;
        };
        let since = self.time;
        self.conns.insert_reserved(Resting { conn, since });
        true
    }

    // A place is free, which one that the acceptor has left may take.
    fn free_place(&mut self)
        ensures { self.new ≡ self.old }
    {
        self.held.fetch_sub(1, Ordering::SeqCst);
        self.called = true;
    }

    // Takes connections that the acceptor has left, as many as there are places at most.
    fn welcome(&mut self)
        requires { self.old.out ≡ None }
        ensures same { (self.new.out ≡ self.old.out) × (self.new.stopped ≡ self.old.stopped) }
        ensures stay { Stays (λ r. instant_nanos r.since) self.old self.new }
    {
        self.called = false;
        for _ in 0..MOST {
            let Some(arrival) = self.queue.take(self.rt, &mut self.taker) else {
                return;
            };
            if !self.take_in(arrival) {
                self.free_place();
            }
        }
        self.called = true;
    }

    // Whether a connection has had no turn for so long, and is to have none in this round.
    fn is_silent(&self, key: usize) -> bool
        ensures silent { IsTrue result → (rest : _) → get self.now.conns key ≡ Some rest → IsSilent self.now.time (instant_nanos rest.since) }
        ensures undue { IsTrue result → ¬ HasKey self.now.round key }
    {
        match self.conns.get(key) {
            Some(resting) => {
                self.time.duration_since(resting.since).as_secs() >= SILENCE && !self.round.has(key)
            }
            None => false,
        }
    }

    // Closes the connections that are silent.
    fn close_silent(&mut self)
        requires { self.old.out ≡ None }
        ensures same { (self.new.out ≡ self.old.out) × (self.new.stopped ≡ self.old.stopped) }
        ensures stay { Stays (λ r. instant_nanos r.since) self.old self.new }
    {
        for key in 0..MOST {
            if self.is_silent(key) && self.conns.try_remove(key).is_some() {
                self.free_place();
            }
        }
    }

    // Looks for silent connections, where that is due.
    fn look(&mut self)
        requires { self.old.out ≡ None }
        ensures same { (self.new.out ≡ self.old.out) × (self.new.stopped ≡ self.old.stopped) }
        ensures stay { Stays (λ r. instant_nanos r.since) self.old self.new }
    {
        if let Ok(now) = Instant::now(self.rt) {
            if now.checked_duration_since(self.time).is_some() {
                self.time = now;
            }
        }
        if self.time.duration_since(self.looked).as_secs() >= LOOK {
            self.looked = self.time;
            self.close_silent();
        }
    }

    // For how long the system may be waited for: not at all where some have something left to do, and for ever where there
    // are none.
    fn wait(&self) -> Option<Duration> {
        if !self.later.is_empty() || self.called {
            return Some(Duration::ZERO);
        }
        if self.conns.is_empty() {
            return None;
        }
        Some(Duration::from_secs(LOOK))
    }

    // Asks the system which are ready, waiting where none has anything left to do. A new round begins. It says no where
    // polling fails, or the server is at its end.
    fn ask(&mut self) -> bool
        requires { self.old.out ≡ None }
        ensures same { (self.new.out ≡ self.old.out) × (self.new.stopped ≡ self.old.stopped) }
        ensures stay { Stays (λ r. instant_nanos r.since) self.old self.new }
        ensures no { result ≡ false → (self.new.failed ≡ true) ⊎ (self.new.over ≡ true) }
    {
        let wait = self.wait();
        self.failed = self.poll.poll(&mut self.events, wait).is_err();
        self.over = self.watch.is_over();
        if self.failed || self.over {
            return false;
        }
        self.round = mem::replace(&mut self.later, Keys::none());
        let woken = gather(&self.events, &mut self.round);
        self.look();
        if woken || self.called {
            self.welcome();
        }
        true
    }

    // Begins a new round where this one is over. It says no where there is none to come.
    #[tactic(auto, using(crate::proofs::Staying::stays_all))]
    fn refill(&mut self) -> bool
        requires { self.old.out ≡ None }
        ensures same { (self.new.out ≡ self.old.out) × (self.new.stopped ≡ self.old.stopped) }
        ensures stay { Stays (λ r. instant_nanos r.since) self.old self.new }
        ensures no { result ≡ false → (self.new.failed ≡ true) ⊎ (self.new.over ≡ true) }
        ensures within { (key : ℕ) (rest : _) → IsFirst self.old key rest → (self.new ≡ self.old) × (result ≡ true) }
    {
        if self.round.is_empty() {
            return self.ask();
        }
        true
    }

    // Tells the acceptor that this worker has begun, the first time.
    fn begin(&mut self)
        ensures { self.new ≡ self.old }
    {
        if !self.begun {
            self.begun = true;
            self.watch.begin();
        }
    }

    // Gives the next of this round, while there are some.
    fn next_of_round(&mut self) -> Option<Conn<MioLink>>
        requires { self.old.out ≡ None }
        ensures some { IfSome result (λ conn. (self.new.out ≡ Some conn.number) × TakesOut self.old self.new conn (λ r. r.conn)) }
        ensures none { IfNone result ((self.new.out ≡ None) × TakesNone self.old self.new) }
        ensures same { (self.new.stopped ≡ self.old.stopped) × (self.new.time ≡ self.old.time) × (self.new.taker ≡ self.old.taker) }
    {
        let key = self.round.take_first()?;
        let Resting { conn, since: _ } = self.conns.try_remove(key)?;
        self.out = Some(conn.number());
        Some(conn)
    }
}

impl<'a, R: Wait + Clock> Feed<MioLink> for PollFeed<'a, R> {
    ghost use Rattle.pm_server.specs.Polled.{IsFirst, IsSilent, GoesOut, TakesBack};

    ghost out = { λ f. f.out };

    ghost stopped = { λ f. f.stopped };

    fn next(&mut self) -> Next<MioLink>
        requires { self.old.out ≡ None }
        ensures given { (self.new.out ≡ number_out result) × (self.new.out ≡ None → self.new.stopped ≡ true) }
        ensures first { (key : ℕ) (rest : _) → IsFirst self.old key rest → (result ≡ next.Turn rest.conn) × GoesOut self.old self.new key }
        ensures stay { (key : ℕ) (rest : _) → get self.old.conns key ≡ Some rest → (get self.new.conns key ≡ Some rest) ⊎ (result ≡ next.Turn rest.conn) ⊎ IsSilent self.new.time (instant_nanos rest.since) }
        ensures place { self.new.taker.place ≡ self.old.taker.place }
        ensures end { self.new.out ≡ None → (self.new.failed ≡ true) ⊎ (self.new.over ≡ true) }
    {
        self.begin();
        for _ in self.rt.forever() {
            if !self.refill() {
                self.watch.end();
                self.stopped = true;
                return Next::Stop;
            }
            if let Some(conn) = self.next_of_round() {
                return Next::Turn(conn);
            }
        }
        unreachable!()
    }

    fn back(&mut self, served: Served<MioLink>)
        requires { self.old.out ≡ Some served.conn.number }
        ensures out { self.new.out ≡ None }
        ensures exact { TakesBack self.old self.new served.turn served.conn (λ r. r.conn) }
        ensures same { (self.new.round ≡ self.old.round) × (self.new.stopped ≡ self.old.stopped) × (self.new.taker ≡ self.old.taker) }
    {
        self.out = None;
        let since = self.time;
        match served.turn() {
            Turn::Idle => {
                let conn = served.into_conn();
                self.conns.insert_reserved(Resting { conn, since });
            }
            Turn::More => {
                let conn = served.into_conn();
                let key = self.conns.insert_reserved(Resting { conn, since });
                self.later.add(key);
            }
            Turn::Ended | Turn::LinkFault | Turn::Memory => self.free_place(),
        }
    }

    fn saw<V: Version>(&self, version: &V) {
        self.watch.saw(version);
    }
}
