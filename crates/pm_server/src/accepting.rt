//! The acceptor.

ghost use Rattle.pm_server.specs.Listening.{IsLocal};

use crate::arrivals::Arrival;
use crate::doors::Door;
use crate::errors::OpenError;
use crate::filling::tell_of;
use crate::notices::{Closed, Notices};
use crate::watch::Watch;
use mio::net::TcpListener;
use mio::{Events, Interest, Poll, Token, Waker};
use pm_handoff::Refused;
use std::alloc::Global;
use std::io::ErrorKind;
use std::net::{IpAddr, Ipv4Addr, Net, SocketAddr};
use std::sync::Wait;
use std::time::{Clock, Duration, Instant};
use std::{io, thread};

// How many milliseconds the acceptor rests where the system gives it no connection, since it may have too many.
const REST: u64 = 20;

// For how many milliseconds it leaves a worker alone to which as many connections are on their way as may be.
const PAUSE: u64 = 1;

// How many seconds all workers have to begin.
const PATIENCE: u64 = 10;

// What the listener's events are told by, and those of the watch.
const COMES: usize = 0;

const WATCH: usize = 1;

// The address that is listened on: a port of 127.0.0.1.
fn address(port: u16) -> SocketAddr
    ensures { IsLocal result port }
{
    SocketAddr::new(IpAddr::V4(Ipv4Addr::new(127, 0, 0, 1)), port)
}

/// Where connections come: a port of 127.0.0.1 that the system listens on.
pub struct Entrance {
    listener: TcpListener,
    poll: Poll,
    events: Events<Global>,
}

impl Drop for Entrance {
    fn drop(self) {
        let Entrance {
            listener: _,
            poll: _,
            events: _,
        } = self;
    }
}

impl Entrance {
    /// Listens on the port, or with 0 on one that the system picks.
    pub fn open<N: Net>(net: &N, alloc: Global, port: u16) -> Result<Entrance, OpenError> {
        let mut listener = TcpListener::bind(net, address(port))?;
        let poll = Poll::new(net)?;
        let events = Events::with_capacity(alloc, 2)?;
        poll.registry()
            .register(&mut listener, Token(COMES), Interest::READABLE)?;
        Ok(Entrance {
            listener,
            poll,
            events,
        })
    }

    /// The port.
    pub fn port(&self) -> io::Result<u16> {
        Ok(self.listener.local_addr()?.port())
    }

    /// A watch that wakes this acceptor.
    pub fn watch(&self) -> io::Result<Watch> {
        let waker = Waker::new(self.poll.registry(), Token(WATCH))?;
        Ok(Watch::new(waker))
    }

    /// Waits until so many workers have begun, for ten seconds at most, and says whether they have. One that the system
    /// gives no thread doesn't begin.
    pub fn await_workers<R: Wait + Clock>(&mut self, rt: &R, watch: &Watch, workers: u64) -> bool {
        let most = Duration::from_secs(PATIENCE);
        let Ok(began) = Instant::now(rt) else {
            return false;
        };
        for _ in rt.forever() {
            if watch.begun() >= workers {
                return true;
            }
            let left = match began.elapsed(rt) {
                Ok(waited) => most.saturating_sub(waited),
                Err(_) => Duration::ZERO,
            };
            if left == Duration::ZERO || self.poll.poll(&mut self.events, Some(left)).is_err() {
                return false;
            }
        }
        unreachable!()
    }

    /// Leaves each connection that comes at the door of the worker with the most room, and closes it where none has any,
    /// of which it tells once a minute at most. It tells of each table, once, that a worker has seen nearly full. It goes on
    /// until the server is at its end, or has nothing to wait by.
    pub fn accept_all<R: Wait + Clock, N: Notices>(
        &mut self,
        rt: &R,
        watch: &Watch,
        doors: &mut [Door],
        notices: &mut N,
    ) {
        let mut number = 0u64;
        let mut closed = Closed::new();
        let mut told = 0;
        for _ in rt.forever() {
            if watch.is_over() {
                return;
            }
            let full = watch.nearly_full();
            tell_of(notices, full & !told);
            told = full;
            match self.listener.accept() {
                Ok((stream, _from)) => {
                    if !place(rt, watch, doors, Arrival { number, stream }) {
                        closed.add(rt, notices);
                    }
                    number = number.wrapping_add(1);
                }
                Err(error) if error.kind() == ErrorKind::WouldBlock => {
                    if self.poll.poll(&mut self.events, None).is_err() {
                        return;
                    }
                }
                Err(_) => thread::sleep(rt, Duration::from_millis(REST)),
            }
        }
    }
}

// The door of the worker with the most room, if one has any.
fn roomiest(doors: &mut [Door]) -> Option<&mut Door> {
    let mut best = None;
    let mut most = 0;
    for place in 0..doors.len() {
        let room = doors[place].room();
        if room > most {
            most = room;
            best = Some(place);
        }
    }
    doors.get_mut(best?)
}

// Leaves a connection at a door, if one has a place for it, and says whether one had. What is written to the connection is
// sent at once, where the system does that.
fn place<R: Wait + Clock>(rt: &R, watch: &Watch, doors: &mut [Door], arrival: Arrival) -> bool {
    let _ = arrival.stream.set_nodelay(true);
    let Some(door) = roomiest(doors) else {
        return false;
    };
    door.take_place();
    leave(rt, watch, door, arrival);
    true
}

// Offers a connection to a worker until it is taken.
fn leave<R: Wait + Clock>(rt: &R, watch: &Watch, door: &mut Door, arrival: Arrival) {
    let mut arrival = arrival;
    for _ in rt.forever() {
        match door.offer(rt, arrival) {
            Ok(()) => return,
            Err(Refused::Full(back)) => arrival = back,
        }
        if watch.is_over() {
            return;
        }
        thread::sleep(rt, Duration::from_millis(PAUSE));
    }
}

/// Ends the server: no worker begins another round of turns.
pub fn dismiss(watch: &Watch, doors: &[Door]) {
    watch.end();
    for door in doors {
        door.wake();
    }
}
