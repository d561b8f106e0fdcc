//! A client's connection, from the acceptor to the turns of a worker.

ghost use Rattle.std.specs.Prelude.{◌≡◌, None};

use crate::sockets::connected;
use pm_house::{Home, House, Seat, house_room};
use pm_io::NoKeep;
use pm_publish::Opened;
use pm_server::{Entrance, Gateway, Notices, OpenError, PollFeed, Watch, dismiss, open_gateway};
use pm_step::Edition;
use pm_worker::{Feed, Next, OpenGate, Served, Turn};
use std::alloc::Global;
use std::io::{Read, Write};
use std::marker::Brand;
use std::net::Net;
use std::process::Abort;
use std::sync::Wait;
use std::sync::ledger::Blank;
use std::test::Fail;
use std::thread;
use std::thread::Threads;
use std::time::Clock;

// What is told to an empty line.
const TOLD: &[u8; 24] = b"{\"no\":\"not_json\",\"v\":0}\n";

// Tells nobody.
#[derive(Clone, Copy)]
struct Quiet;

impl Notices for Quiet {
    fn no_place(&mut self, _closed: u64) {}

    fn nearly_full(&mut self, _table: &str, _limit: u64) {}
}

// Serves what the feed gives next, which is the first connection that has come, and says how its turn ended; or None, where
// there are no more.
fn turn<H: Home, R: Threads + Wait + Clock + Abort + Alloc<A = Global> + Sync>(
    rt: &R,
    house: &House<Edition, NoKeep, H>,
    seat: &mut Seat<Edition, H>,
    feed: &mut PollFeed<'_, R>,
) -> Option<Turn>
    requires { feed.old.out ≡ None }
    ensures { feed.new.out ≡ None }
{
    match feed.next() {
        Next::Turn(conn) => {
            assert_eq!(rt; conn.number(), 0);
            let served = Served::serve(rt, rt.alloc(), house, seat, conn, &OpenGate);
            let turn = served.turn();
            feed.back(served);
            Some(turn)
        }
        Next::Stop => None,
    }
}

fn check_replies<S: Read>(rt: &impl Abort, client: &mut S) {
    for _ in 0..100 {
        let mut reply = [0u8; 24];
        client.read_exact(&mut reply).expect(rt, "a reply");
        assert_eq!(rt; reply, *TOLD);
    }
}

// A client comes and asks nothing; sends 100 empty lines at once, of which a turn answers 64; and goes. Then the server ends.
fn visit<H: Home, R: Threads + Wait + Net + Clock + Abort + Alloc<A = Global> + Sync>(
    rt: &R,
    house: &House<Edition, NoKeep, H>,
    seat: &mut Seat<Edition, H>,
    feed: &mut PollFeed<'_, R>,
    watch: &Watch,
    port: u16,
)
    requires { feed.old.out ≡ None }
{
    let mut client = connected(rt, 1, port).expect(rt, "a connection");
    assert_eq!(rt; turn(rt, house, seat, feed), Some(Turn::Idle));
    client.write_all(&[b'\n'; 100]).expect(rt, "to send");
    assert_eq!(rt; turn(rt, house, seat, feed), Some(Turn::More));
    assert_eq!(rt; turn(rt, house, seat, feed), Some(Turn::Idle));
    check_replies(rt, &mut client);
    drop(client);
    assert_eq!(rt; turn(rt, house, seat, feed), Some(Turn::Ended));
    dismiss(watch, &[]);
    assert_eq!(rt; turn(rt, house, seat, feed), None);
}

fn accepted_and_served<H: Home, R: Threads + Wait + Net + Clock + Abort + Alloc<A = Global> + Sync>(
    rt: &R,
    opened: Opened,
    blank: Blank,
) -> Result<(), OpenError>
    requires room { opened ≡ H.book }
    requires ledger { (blank.name ≡ H.name) × (blank.parts ≡ H.parts) }
    requires seats { (H.all ≡ 1) × (H.parts ≡ 1) }
{
    let (house, mut seats) = House::<Edition, NoKeep, H>::open(
        rt.alloc(),
        opened,
        blank,
        NoKeep,
        1,
    )?;
    let mut seat = seats.seat(0).expect(rt, "seat 0");
    let mut entrance = Entrance::open(rt, rt.alloc(), 0)?;
    let watch = entrance.watch()?;
    let port = entrance.port()?;
    let Gateway { door, mut feed } = open_gateway(rt, rt.alloc(), &watch)?;
    let mut doors = [door];
    thread::join(
        rt,
        || entrance.accept_all(rt, &watch, &mut doors, &mut Quiet),
        ||
            requires { feed.out ≡ None }
        { visit(rt, &house, &mut seat, &mut feed, &watch, port) },
    );
    Ok(())
}

#[test]
fn a_connection_has_its_turns(rt: HostRuntime) -> Result<(), Fail> {
    let (opened, blank) = house_room(1);
    accepted_and_served::<Brand, _>(&rt, opened, blank)?;
    Ok(())
}
