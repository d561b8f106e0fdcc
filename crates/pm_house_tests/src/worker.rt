//! Turns over links in memory, with answers worked out by hand.

ghost use Rattle.std.specs.Prelude.{◌≡◌, [], IfSome};

mod crews;

use pm_house::{Home, House, Seat, house_room};
use pm_io::{MemKeep, MemLink, NoKeep};
use pm_model::Keep;
use pm_publish::Opened;
use pm_step::Edition;
use pm_worker::{Conn, Gate, OpenGate, Phase, Turn, serve_turn};
use std::alloc::Global;
use std::marker::Brand;
use std::process::Abort;
use std::sync::Wait;
use std::sync::atomic::{AtomicU32, Ordering};
use std::sync::ledger::Blank;
use std::thread::Threads;

// The house of one seat, and its seat.
fn house_of_one<K: Keep + Drop, H: Home, R: Abort + Alloc<A = Global>>(
    rt: &R,
    opened: Opened,
    blank: Blank,
    keeper: K,
) -> (House<Edition, K, H>, Seat<Edition, H>)
    requires room { opened ≡ H.book }
    requires ledger { (blank.name ≡ H.name) × (blank.parts ≡ H.parts) }
    requires seats { (H.all ≡ 1) × (H.parts ≡ 1) }
    requires keeper { IfSome (K.kept keeper) (λ es. es ≡ []) }
{
    let (house, mut seats) = House::open(rt.alloc(), opened, blank, keeper, 1).expect(rt, "memory");
    let seat = seats.seat(0).expect(rt, "seat 0");
    (house, seat)
}

// The turns of a connection over this link end so, one after another; it comes back.
fn served<K: Keep + Drop, H: Home, R: Threads + Wait + Abort + Alloc<A = Global> + Sync>(
    rt: &R,
    house: &House<Edition, K, H>,
    seat: &mut Seat<Edition, H>,
    link: MemLink,
    turns: &[Turn],
) -> Conn<MemLink> {
    let mut conn = Conn::new(rt.alloc(), 5, link).expect(rt, "memory");
    for turn in turns {
        assert_eq!(rt;
            serve_turn(rt, rt.alloc(), house, seat, &mut conn, &OpenGate),
            *turn
        );
    }
    assert_eq!(rt; conn.number(), 5);
    conn
}

const ASKED: &[u8] = b"{\"cmd\":\"version\"}\n";

const TOLD: &[u8] = b"{\"ok\":\"done\",\"v\":0}\n";

// Which calls can do nothing and which fail, how the turns end then, and what was taken and what is still to be sent.
type Fate = (
    &'static [u64],
    &'static [u64],
    &'static [Turn],
    &'static [u8],
    &'static [u8],
);

// A line is read, its reply written, and the end read.
static FATES: &[Fate] = &[
    (&[], &[], &[Turn::Ended], TOLD, b""),
    (&[], &[1], &[Turn::LinkFault], b"", b""),
    (&[], &[2], &[Turn::LinkFault], b"", TOLD),
    (&[], &[3], &[Turn::LinkFault], TOLD, b""),
    (&[1], &[], &[Turn::Idle, Turn::Ended], TOLD, b""),
    (&[2], &[], &[Turn::Idle, Turn::Ended], TOLD, b""),
    (&[3], &[], &[Turn::Idle, Turn::Ended], TOLD, b""),
];

fn check_fate<H: Home, R: Threads + Wait + Abort + Alloc<A = Global> + Sync>(
    rt: &R,
    house: &House<Edition, NoKeep, H>,
    seat: &mut Seat<Edition, H>,
    fate: &Fate,
) {
    let (agains, failing, turns, taken, left) = fate;
    let link = MemLink::new(rt.alloc(), ASKED, 64, &[], agains, failing).expect(rt, "memory");
    let conn = served(rt, house, seat, link, turns);
    assert_eq!(rt; conn.link().taken(), *taken);
    assert_eq!(rt; conn.session().out(), *left);
}

fn one_line<H: Home, R: Threads + Wait + Abort + Alloc<A = Global> + Sync>(
    rt: &R,
    opened: Opened,
    blank: Blank,
)
    requires room { opened ≡ H.book }
    requires ledger { (blank.name ≡ H.name) × (blank.parts ≡ H.parts) }
    requires seats { (H.all ≡ 1) × (H.parts ≡ 1) }
{
    let (house, mut seat) = house_of_one::<NoKeep, H, R>(rt, opened, blank, NoKeep);
    for fate in FATES {
        check_fate(rt, &house, &mut seat, fate);
    }
}

#[test]
fn a_link_may_fail_at_each_call(rt: HostRuntime) {
    let (opened, blank) = house_room(1);
    one_line::<Brand, _>(&rt, opened, blank)
}

// Lines that are answered in many ways, the third time that something is to be kept without success.
const MIXED: &[u8] =
    b"{\"cmd\":\"create_pc\",\"id\":1,\"name\":\"files\",\"proc\":0}\n{\"cmd\":\"create_pc\",\"id\":2,\"name\":\"files\",\"proc\":0}\nx\n{\"cmd\":\"fly\",\"id\":3}\n{\"cmd\":\"caps\",\"proc\":0,\"user\":\"root\"}\n{\"cmd\":\"open_session\",\"user\":\"root\"}\n{\"cmd\":\"version\",\"after\":9}\n{\"cmd\":\"create_pc\",\"name\":\"b\",\"proc\":0}\n{\"cmd\":\"create_pc\",\"name\":\"b\",\"proc\":0}\n{\"cmd\":\"ver";

const REPLIED: &[u8] =
    b"{\"id\":1,\"ok\":\"done\",\"v\":1}\n{\"id\":2,\"no\":\"name_taken\",\"v\":1}\n{\"no\":\"not_json\",\"v\":1}\n{\"id\":3,\"no\":\"unknown_command\",\"v\":1}\n{\"list\":[],\"ok\":\"caps\",\"v\":1}\n{\"ok\":\"done\",\"session\":1,\"v\":2}\n{\"no\":\"ahead\",\"v\":2}\n{\"no\":\"keep_fault\",\"v\":2}\n{\"ok\":\"done\",\"v\":3}\n";

// Counts the lines that were taken, and those that were replied to.
#[derive(Drop)]
struct Passes {
    taken: AtomicU32,
    replied: AtomicU32,
}

impl Gate for Passes {
    fn pass(&self, _seat: u32, phase: Phase) {
        let count = match phase {
            Phase::Taken => &self.taken,
            Phase::Replied => &self.replied,
        };
        count.fetch_add(1, Ordering::SeqCst);
    }
}

// Two turns, in which nine lines are taken and replied to.
fn serve_mixed<K: Keep + Drop, H: Home, R: Threads + Wait + Abort + Alloc<A = Global> + Sync>(
    rt: &R,
    house: &House<Edition, K, H>,
    seat: &mut Seat<Edition, H>,
    conn: &mut Conn<MemLink>,
) {
    let gate = Passes {
        taken: AtomicU32::new(0),
        replied: AtomicU32::new(0),
    };
    assert!(rt; serve_turn(rt, rt.alloc(), house, seat, conn, &gate) == Turn::Idle);
    assert!(rt; serve_turn(rt, rt.alloc(), house, seat, conn, &gate) == Turn::Ended);
    let taken = gate.taken.load(Ordering::SeqCst);
    assert_eq!(rt; (taken, gate.replied.load(Ordering::SeqCst)), (9, 9));
}

fn mixed<H: Home, R: Threads + Wait + Abort + Alloc<A = Global> + Sync>(
    rt: &R,
    opened: Opened,
    blank: Blank,
)
    requires room { opened ≡ H.book }
    requires ledger { (blank.name ≡ H.name) × (blank.parts ≡ H.parts) }
    requires seats { (H.all ≡ 1) × (H.parts ≡ 1) }
{
    let keeper = MemKeep::new(rt.alloc(), &[3]).expect(rt, "memory");
    let (house, mut seat) = house_of_one::<MemKeep, H, R>(rt, opened, blank, keeper);
    let link = MemLink::new(rt.alloc(), MIXED, 4096, &[100, 1], &[2], &[]).expect(rt, "memory");
    let mut conn = Conn::new(rt.alloc(), 0, link).expect(rt, "memory");
    serve_mixed(rt, &house, &mut seat, &mut conn);
    assert_eq!(rt; conn.link().taken(), REPLIED);
}

#[test]
fn each_line_has_its_reply(rt: HostRuntime) {
    let (opened, blank) = house_room(1);
    mixed::<Brand, _>(&rt, opened, blank)
}
