//! Where a worker's connections come from, as a trait, and the worker's loop.

ghost use Rattle.std.specs.Prelude.{◌≡◌, ℕ, Bool, true, Option, Some, None};
ghost use Rattle.pm_house.specs.Desks.{NeverFails};
ghost use Rattle.pm_worker.specs.Feeding.{number_out, Works};
ghost use Rattle.pm_worker.specs.Served.{IsServed};

use crate::conn::Conn;
use crate::gates::Gate;
use crate::served::Served;
use pm_house::{Home, House, Seat};
use pm_io::Link;
use pm_machine::Version;
use pm_model::Keep;
use std::alloc::Global;
use std::sync::Wait;
use std::thread::Threads;

/// What a feed gives.
pub enum Next<L> {
    /// A connection that is to have a turn.
    Turn(Conn<L>),
    /// There are no more.
    Stop,
}

/// Where connections come from.
pub trait Feed<L: Link> {
    /// The number of the connection that it gave and that hasn't come back.
    ghost out: { Self → Option ℕ };

    /// Whether it has said that there are no more.
    ghost stopped: { Self → Bool };

    /// The next connection, once the one before has come back.
    fn next(&mut self) -> Next<L>
        requires { out self.old ≡ None }
        ensures { (out self.new ≡ number_out result) × (out self.new ≡ None → stopped self.new ≡ true) };

    /// The connection that it gave comes back, after a turn.
    fn back(&mut self, served: Served<L>)
        requires number { out self.old ≡ Some served.conn.number }
        requires served { IsServed L.wire served.conn served.turn }
        ensures { out self.new ≡ None };

    /// Is shown the version that the worker's seat shows after each turn. Nothing is known of what it does with it.
    fn saw<V: Version>(&self, version: &V);
}

/// Serves what a feed gives, until it stops.
#[tactic(auto, using(crate::proofs::Working::works_still))]
pub fn work<
    L: Link + Drop,
    V: Version,
    K: Keep + Drop,
    H: Home,
    G: Gate,
    F: Feed<L>,
    R: Threads + Wait + Sync,
>(rt: &R, alloc: Global, house: &House<V, K, H>, seat: &mut Seat<V, H>, feed: &mut F, gate: &G)
    requires { F.out feed.old ≡ None }
    ensures stopped { F.stopped feed.new ≡ true }
    ensures out { F.out feed.new ≡ None }
    ensures works { Works (NeverFails K.faults) seat.old seat.new }
{
    seat.still();
    for _ in rt.forever() {
        match feed.next() {
            Next::Turn(conn) => {
                let served = Served::serve(rt, alloc, house, seat, conn, gate);
                feed.back(served);
                feed.saw(seat.shown());
            }
            Next::Stop => return,
        }
    }
    unreachable!()
}
