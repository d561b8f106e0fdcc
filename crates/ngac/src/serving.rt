//! The server: one house, a worker for each of its seats, and the acceptor.

ghost use Rattle.std.specs.Prelude.{◌≡◌, ◌<◌, ◌≤◌, None};
ghost use Rattle.ngac.specs.Endings.{status_after, IsServerEnd, IsJournalEnd};

use crate::operator::Operator;
use crossbeam_utils::rule::Protocol;
use pm_house::{Home, House, Seat, Seats, house_room};
use pm_io::NoKeep;
use pm_model::{Keep, Memory, Sink};
use pm_publish::{Glimpse, NeverBack, Opened, Sealed};
use pm_run::{Status, write_all};
use pm_server::{
    Door, Entrance, Gateway, Notices, OpenError, PollFeed, Watch, dismiss, open_gateway,
};
use pm_step::Edition;
use pm_worker::{Crew, OpenGate, run_workers};
use std::alloc::Global;
use std::marker::{Brand, Model};
use std::net::Net;
use std::sync::Wait;
use std::sync::ledger::Blank;
use std::thread;
use std::thread::Threads;
use std::time::Clock;

/// The workers, none of which has been given a connection.
struct Staff<'a, H: Home, R>
where
    NeverBack: Protocol<Sealed<Edition, H>, Glimpse>,
{
    crew: Vec<Crew<PollFeed<'a, R>, Edition, H>>,
}

impl<'a, H: Home, R> Model for Staff<'a, H, R>
where
    NeverBack: Protocol<Sealed<Edition, H>, Glimpse>,
{
    ghost use Rattle.std.specs.Prelude.{◌≡◌, None, All, ℕ, length};

    ghost Value = { ℕ };

    ghost view = { λ s. length s.crew.items };

    ghost invariant = { λ s. All (λ m. m.feed.out ≡ None) s.crew.items };
}

impl<'a, H: Home, R> Drop for Staff<'a, H, R>
where
    NeverBack: Protocol<Sealed<Edition, H>, Glimpse>,
{
    fn drop(self) {
        let Staff { crew: _ } = self;
    }
}

impl<'a, H: Home, R: Wait + Clock> Staff<'a, H, R> {
    fn hire(&mut self, seat: Seat<Edition, H>, feed: PollFeed<'a, R>) -> Result<(), Memory>
        requires { feed.out ≡ None }
    {
        self.crew.push(Crew { seat, feed })?;
        Ok(())
    }
}

impl<'a, H: Home + Send + Sync, R: Threads + Wait + Clock + Alloc<A = Global> + Sync> Staff<
    'a,
    H,
    R,
> {
    // All work, until the server is at its end.
    fn work<K: Keep + Drop + Send>(self, rt: &R, house: &House<Edition, K, H>) {
        let Staff { mut crew } = self;
        run_workers(rt, rt.alloc(), house, &mut crew, &OpenGate);
    }
}

// A worker for each seat, and the door to it.
fn hire_all<'a, H: Home, R: Wait + Net + Clock>(
    rt: &'a R,
    alloc: Global,
    watch: &'a Watch,
    seats: &mut Seats<Edition, H>,
    staff: &mut Staff<'a, H, R>,
    doors: &mut Vec<Door>,
    workers: u32,
) -> Result<(), OpenError> {
    for place in 0..workers {
        let Some(seat) = seats.seat(place) else {
            return Ok(());
        };
        let Gateway { door, feed } = open_gateway(rt, alloc, watch)?;
        staff.hire(seat, feed)?;
        doors.push(door)?;
    }
    Ok(())
}

// Tells where it listens, as far as `out` takes the words.
fn tell<O: Sink>(alloc: Global, out: &mut O, port: u16) -> Result<(), Memory> {
    let line = format!(in alloc; "listening 127.0.0.1:{port}\n")?;
    let _ = write_all(out, line.as_bytes());
    Ok(())
}

// Tells where it listens once each worker has begun, and leaves connections at their doors. It comes back where the server
// can't go on, or has no memory to tell.
fn attend<O: Sink, N: Notices, R: Wait + Clock + Alloc<A = Global>>(
    rt: &R,
    out: &mut O,
    notices: &mut N,
    watch: &Watch,
    entrance: &mut Entrance,
    doors: &mut [Door],
    port: u16,
) -> Result<(), Memory> {
    let mut told = Ok(());
    if entrance.await_workers(rt, watch, doors.len() as u64) {
        told = tell(rt.alloc(), out, port);
        if told.is_ok() {
            entrance.accept_all(rt, watch, doors, notices);
        }
    }
    dismiss(watch, doors);
    told
}

// Serves what comes by this house, until it can't go on; or tells why it can't begin.
pub(crate) fn run_house<
    K: Keep + Drop + Send,
    H: Home + Send + Sync,
    O: Sink,
    N: Notices,
    R: Threads + Wait + Net + Clock + Alloc<A = Global> + Sync,
>(
    rt: &R,
    out: &mut O,
    notices: &mut N,
    house: &House<Edition, K, H>,
    seats: &mut Seats<Edition, H>,
    port: u16,
    workers: u32,
) -> Result<(), OpenError> {
    let mut entrance = Entrance::open(rt, rt.alloc(), port)?;
    let watch = entrance.watch()?;
    let port = entrance.port()?;
    let mut staff = Staff {
        crew: Vec::new(rt.alloc()),
    };
    let mut doors = Vec::new(rt.alloc());
    hire_all(
        rt,
        rt.alloc(),
        &watch,
        seats,
        &mut staff,
        &mut doors,
        workers,
    )?;
    let ((), told) = thread::join(
        rt,
        || staff.work(rt, house),
        || attend(rt, out, notices, &watch, &mut entrance, &mut doors, port),
    );
    told?;
    Ok(())
}

// Serves what comes by a house of the opening state.
fn serve_anew<
    H: Home + Send + Sync,
    O: Sink,
    N: Notices,
    R: Threads + Wait + Net + Clock + Alloc<A = Global> + Sync,
>(
    rt: &R,
    out: &mut O,
    notices: &mut N,
    opened: Opened,
    blank: Blank,
    port: u16,
    workers: u32,
) -> Result<(), OpenError>
    requires room { opened ≡ H.book }
    requires ledger { (blank.name ≡ H.name) × (blank.parts ≡ H.parts) }
    requires seats { (0 < workers) × (workers ≤ 32) × (H.all ≡ workers) × (H.parts ≡ workers) }
{
    let (house, mut seats) = House::<Edition, NoKeep, H>::open(
        rt.alloc(),
        opened,
        blank,
        NoKeep,
        workers,
    )?;
    run_house(rt, out, notices, &house, &mut seats, port, workers)
}

/// How a server has ended that came back with this.
pub(crate) fn ended<E: Sink>(
    operator: &mut Operator<'_, E>,
    port: u16,
    served: Result<(), OpenError>,
) -> Status
    ensures exact { result ≡ status_after served }
    ensures server { IsServerEnd result }
    ensures journal { IsJournalEnd result }
{
    match served {
        Ok(()) => Status::ServeFault,
        Err(OpenError::Memory) => Status::Memory,
        Err(OpenError::System(why)) => {
            operator.explain(port, why);
            Status::ListenFault
        }
    }
}

/// Listens on this port of 127.0.0.1, tells the port on `out` once all workers have begun, and serves each connection by one
/// of so many workers, until the process is ended. It comes back only where it can't begin, or can't go on; where the system refused
/// something before it listened, it says on `err` why.
pub(crate) fn serve<O: Sink, E: Sink, R: Threads + Wait + Net + Clock + Alloc<A = Global> + Sync>(
    rt: &R,
    out: &mut O,
    err: &mut E,
    port: u16,
    workers: u16,
) -> Status
    requires { (0 < workers) × (workers ≤ 32) }
    ensures { IsServerEnd result }
{
    let workers = u32::from(workers);
    let (opened, blank) = house_room(workers);
    let mut operator = Operator {
        alloc: rt.alloc(),
        err,
    };
    let served = serve_anew::<Brand, O, Operator<'_, E>, R>(
        rt,
        out,
        &mut operator,
        opened,
        blank,
        port,
        workers,
    );
    ended(&mut operator, port, served)
}
