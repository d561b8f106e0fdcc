//! A worker's door: where the acceptor leaves connections for it.

ghost use Rattle.std.specs.Prelude.{◌≡◌, ◌++◌, ◌∷◌, [], None, IfErr, IfOk, OnErr, OnOk};

use crate::arrivals::Arrival;
use crate::errors::OpenError;
use crate::keys::MOST;
use crate::poll_feed::PollFeed;
use crate::watch::Watch;
use mio::Waker;
use pm_handoff::{Ends, Giver, Handoff, Refused};
use std::alloc::Global;
use std::marker::Model;
use std::net::Net;
use std::sync::atomic::{AtomicU64, Ordering};
use std::sync::{Arc, Wait};
use std::time::Clock;

// How many connections may be on their way to a worker.
const ON_THE_WAY: u32 = 256;

/// The acceptor's side of the hand-off to one worker, how many places of that worker are taken, and what wakes it.
pub struct Door {
    queue: Arc<Handoff<Arrival>>,
    giver: Giver<Arrival>,
    held: Arc<AtomicU64>,
    waker: Waker,
}

impl Drop for Door {
    fn drop(self) {
        let Door {
            queue: _,
            giver: _,
            held: _,
            waker: _,
        } = self;
    }
}

impl Model for Door {
    ghost use Rattle.std.specs.Prelude.{◌≡◌};
    ghost use Rattle.std.specs.Arc.{arc_value};
    ghost use Rattle.pm_handoff.specs.Ends.{End};

    ghost Value = { End };

    ghost view = { λ d. d.giver };

    ghost invariant = { λ d. d.giver.place ≡ (arc_value d.queue).place };
}

/// Both sides of the hand-off to one worker.
#[derive(Drop)]
pub struct Gateway<'a, R> {
    pub door: Door,
    pub feed: PollFeed<'a, R>,
}

impl Door {
    // How many places the worker has left, as far as it has told.
    pub(crate) fn room(&self) -> u64 {
        (MOST as u64).saturating_sub(self.held.load(Ordering::SeqCst))
    }

    // Takes a place of the worker, for a connection that is offered to it from now on.
    pub(crate) fn take_place(&self) {
        self.held.fetch_add(1, Ordering::SeqCst);
    }

    // Offers a connection to the worker. It comes back where as many are on their way as may be.
    pub(crate) fn offer<R: Wait>(
        &mut self,
        rt: &R,
        arrival: Arrival,
    ) -> Result<(), Refused<Arrival>>
        ensures given { OnOk result (self.new ≡ record self.old { given = self.old.given ++ arrival.number ∷ [] }) }
        ensures back { IfErr result (λ refused. refused ≡ Refused.Full arrival) }
        ensures same { OnErr result (self.new ≡ self.old) }
    {
        let given = self.queue.give(rt, &mut self.giver, arrival);
        self.wake();
        given
    }

    // Wakes the worker.
    pub(crate) fn wake(&self) {
        let _ = self.waker.wake();
    }
}

/// A door, and the feed of the worker behind it.
pub fn open_gateway<'a, R: Wait + Net + Clock>(
    rt: &'a R,
    alloc: Global,
    watch: &'a Watch,
) -> Result<Gateway<'a, R>, OpenError>
    ensures idle { IfOk result (λ g. g.feed.out ≡ None) }
    ensures joined { IfOk result (λ g. g.feed.taker.place ≡ g.door.place) }
{
    let Ends {
        queue,
        giver,
        taker,
    } = Handoff::new(alloc, ON_THE_WAY)?;
    let queue = Arc::new(alloc, queue)?;
    let behind = Arc::try_clone(&queue)?;
    let held = Arc::new(alloc, AtomicU64::new(0))?;
    let told = Arc::try_clone(&held)?;
    let (feed, waker) = PollFeed::new(rt, rt, alloc, watch, told, behind, taker)?;
    let door = Door {
        queue,
        giver,
        held,
        waker,
    };
    Ok(Gateway { door, feed })
}
