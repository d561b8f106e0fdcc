//! Workers in threads of their own over lists of connections, with answers worked out by hand.

ghost use Rattle.std.specs.Prelude.{◌≡◌, None, All, IfOk};

use crossbeam_utils::rule::Protocol;
use pm_house::{Home, House, Seats, house_room};
use pm_io::{MemLink, NoKeep};
use pm_model::Memory;
use pm_publish::{Glimpse, NeverBack, Opened, Sealed};
use pm_step::Edition;
use pm_worker::{Conn, Crew, Gate, ListFeed, OpenGate, Phase, Turn, run_workers};
use std::alloc::Global;
use std::marker::Brand;
use std::process::Abort;
use std::sync::Wait;
use std::sync::atomic::{AtomicBool, AtomicU32, Ordering};
use std::sync::ledger::Blank;
use std::thread;
use std::thread::Threads;
use std::time::{Clock, Duration};

// Each worker has one connection, whose client makes so many policy classes with names of its own.
const WORKERS: u32 = 4;

const LINES: u32 = 100;

const ENTRIES: usize = 400;

// The lines of a worker's client, all of whose bytes are there.
fn lines_of<R: Abort + Alloc<A = Global>>(rt: &R, worker: u32) -> String {
    let mut lines = String::new(rt.alloc());
    for n in 0..LINES {
        let line = format!(in rt.alloc();
            "{{\"cmd\":\"create_pc\",\"name\":\"w{worker}_{n}\",\"proc\":0}}\n"
        ).expect(rt, "memory");
        lines.push_str(&line).expect(rt, "memory");
    }
    lines
}

fn feed_of<R: Abort + Alloc<A = Global>>(rt: &R, worker: u32) -> ListFeed<MemLink>
    ensures { result.out ≡ None }
{
    let lines = lines_of(rt, worker);
    let link = MemLink::new(rt.alloc(), lines.as_bytes(), 4096, &[100, 1], &[3], &[]).expect(
        rt, "memory",
    );
    let mut conns = Vec::new(rt.alloc());
    conns
        .push(Conn::new(rt.alloc(), 0, link).expect(rt, "memory"))
        .expect(rt, "memory");
    ListFeed::new(rt.alloc(), conns).expect(rt, "memory")
}

type Workers<H> = Vec<Crew<ListFeed<MemLink>, Edition, H>>;

// A worker for each seat, none of which has been given a connection.
fn crew_of<H: Home, R: Abort + Alloc<A = Global>>(
    rt: &R,
    seats: &mut Seats<Edition, H>,
) -> Result<Workers<H>, Memory>
    ensures { IfOk result (λ crew. All (λ m. m.feed.out ≡ None) crew.items) }
{
    let mut crew = Vec::new(rt.alloc());
    for place in 0..WORKERS {
        let seat = seats.seat(place).expect(rt, "a seat");
        let feed = feed_of(rt, place);
        crew.push(Crew { seat, feed })?;
    }
    Ok(crew)
}

// Counts each version that stands last in a reply. It rises from reply to reply, so each is that of an entry.
fn count_versions(rt: &impl Abort, replies: &[u8], seen: &mut [u8]) {
    let mut version = 0usize;
    let mut last = 0;
    for byte in replies {
        match *byte {
            b'0'..=b'9' => version = version
                .wrapping_mul(10)
                .wrapping_add(usize::from(*byte - b'0')),
            b'}' => {
                assert!(rt; last < version);
                last = version;
                if let Some(times) = seen.get_mut(version) {
                    *times = times.wrapping_add(1);
                }
            }
            _ => version = 0,
        }
    }
}

// Counts the versions of a worker's connection, which has ended.
fn count_of<H: Home>(
    rt: &impl Abort,
    member: &Crew<ListFeed<MemLink>, Edition, H>,
    seen: &mut [u8],
) {
    let over = member.feed.done(0).expect(rt, "a connection that ended");
    assert_eq!(rt; over.turn(), Turn::Ended);
    count_versions(rt, over.conn().link().taken(), seen);
}

fn classes<
    H: Home + Send + Sync,
    G: Gate + Send + Sync,
    R: Threads + Wait + Abort + Alloc<A = Global> + Sync,
>(rt: &R, opened: Opened, blank: Blank, gate: &G)
    requires room { opened ≡ H.book }
    requires ledger { (blank.name ≡ H.name) × (blank.parts ≡ H.parts) }
    requires seats { (H.all ≡ 4) × (H.parts ≡ 4) }
{
    let (house, mut seats) = House::<Edition, NoKeep, H>::open(
        rt.alloc(),
        opened,
        blank,
        NoKeep,
        WORKERS,
    ).expect(rt, "memory");
    let mut crew = crew_of(rt, &mut seats).expect(rt, "memory");
    run_workers(rt, rt.alloc(), &house, &mut crew, gate);
    let mut seen = [0u8; ENTRIES + 1];
    for member in &crew {
        count_of(rt, member, &mut seen);
    }
    for times in &seen[1..] {
        assert_eq!(rt; *times, 1);
    }
}

#[test]
fn each_version_comes_once(rt: HostRuntime) {
    let (opened, blank) = house_room(4);
    classes::<Brand, _, _>(&rt, opened, blank, &OpenGate)
}

// Holds the first worker at each line until the second has replied to one, for ten seconds at most.
struct Holding<'a, R> {
    rt: &'a R,
    replied: AtomicU32,
    in_vain: AtomicBool,
}

impl<'a, R> Drop for Holding<'a, R> {
    fn drop(self) {
        let Holding {
            rt: _,
            replied: _,
            in_vain: _,
        } = self;
    }
}

impl<'a, R: Wait + Clock> Holding<'a, R> {
    fn hold(&self) {
        for _ in 0..10_000u32 {
            if self.replied.load(Ordering::SeqCst) > 0 {
                return;
            }
            thread::sleep(self.rt, Duration::from_millis(1));
        }
        self.in_vain.store(true, Ordering::SeqCst);
    }
}

impl<'a, R: Wait + Clock> Gate for Holding<'a, R> {
    fn pass(&self, seat: u32, phase: Phase) {
        if seat == 0 && phase == Phase::Taken {
            self.hold();
        }
        if seat == 1 && phase == Phase::Replied {
            self.replied.fetch_add(1, Ordering::SeqCst);
        }
    }
}

#[test]
fn one_worker_replies_while_another_is_held(rt: HostRuntime) {
    let (opened, blank) = house_room(4);
    let gate = Holding {
        rt: &rt,
        replied: AtomicU32::new(0),
        in_vain: AtomicBool::new(false),
    };
    classes::<Brand, _, _>(&rt, opened, blank, &gate);
    assert!(rt; !gate.in_vain.load(Ordering::SeqCst));
}
