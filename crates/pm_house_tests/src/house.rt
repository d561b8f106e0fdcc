//! Houses of two seats, with answers worked out by hand.

ghost use Rattle.std.specs.Prelude.{◌≡◌};

mod asking;
mod restoring;

use asking::{Ask, Told, is_seen, is_told, never_falls, policy, request, start_processes};
use crossbeam_utils::rule::Protocol;
use pm_house::{Home, House, Seat, Seats, house_room};
use pm_io::NoKeep;
use pm_machine::Version;
use pm_publish::{Glimpse, NeverBack, Opened, Sealed};
use pm_step::Edition;
use std::alloc::Global;
use std::marker::Brand;
use std::process::Abort;
use std::sync::Wait;
use std::sync::ledger::Blank;
use std::thread;
use std::thread::Threads;

fn house_of_two<V: Version, H: Home, R: Abort + Alloc<A = Global>>(
    rt: &R,
    opened: Opened,
    blank: Blank,
) -> (House<V, NoKeep, H>, Seats<V, H>)
    requires room { opened ≡ H.book }
    requires ledger { (blank.name ≡ H.name) × (blank.parts ≡ H.parts) }
    requires seats { (H.all ≡ 2) × (H.parts ≡ 2) }
{
    House::open(rt.alloc(), opened, blank, NoKeep, 2).expect(rt, "memory")
}

fn policy_of_a_stranger<V: Version, H: Home, R: Threads + Wait + Abort + Alloc<A = Global> + Sync>(
    rt: &R,
    opened: Opened,
    blank: Blank,
)
    requires room { opened ≡ H.book }
    requires ledger { (blank.name ≡ H.name) × (blank.parts ≡ H.parts) }
    requires seats { (H.all ≡ 2) × (H.parts ≡ 2) }
{
    let (house, mut seats) = house_of_two::<V, H, R>(rt, opened, blank);
    let mut one = seats.seat(0).expect(rt, "seat 0");
    let mut two = seats.seat(1).expect(rt, "seat 1");
    assert!(rt; seats.seat(0).is_none() && seats.seat(2).is_none());
    make_policy(rt, &house, &mut one);
    read_as_denied(rt, &house, &mut one, &mut two);
}

fn make_policy<V: Version, H: Home, R: Threads + Wait + Abort + Alloc<A = Global> + Sync>(
    rt: &R,
    house: &House<V, NoKeep, H>,
    seat: &mut Seat<V, H>,
) {
    for n in 0..12 {
        let next = request(rt, policy(n));
        is_told(rt, house, seat, &next, Told::Done, u64::from(n) + 1);
    }
}

// The one has made the policy and taken from `ann` what she could read: so the other is told.
fn read_as_denied<V: Version, H: Home, R: Threads + Wait + Abort + Alloc<A = Global> + Sync>(
    rt: &R,
    house: &House<V, NoKeep, H>,
    one: &mut Seat<V, H>,
    two: &mut Seat<V, H>,
) {
    let mut read = request(rt, Ask::Read(1, "memo"));
    read.after = Some(12);
    is_seen(rt, two, &read, Some((Told::Lacks(3), 12)));
    assert!(rt; one.version() == 12);
    house.meet(rt, one, two);
    is_told(rt, house, two, &read, Told::Lacks(3), 12);
}

#[test]
fn a_stranger_is_told_of_the_policy(rt: HostRuntime) {
    let (opened, blank) = house_room(2);
    policy_of_a_stranger::<Edition, Brand, _>(&rt, opened, blank)
}

// A caller in a thread of its own: how often it starts a process, and how often it looks.
struct Caller<V: Version, H: Home>
where
    NeverBack: Protocol<Sealed<V, H>, Glimpse>,
{
    seat: Seat<V, H>,
    starts: u64,
    looks: u64,
    fine: bool,
}

impl<V: Version, H: Home> Drop for Caller<V, H>
where
    NeverBack: Protocol<Sealed<V, H>, Glimpse>,
{
    fn drop(self) {
        let Caller {
            seat: _,
            starts: _,
            looks: _,
            fine: _,
        } = self;
    }
}

fn act<V: Version, H: Home, R: Threads + Wait + Abort + Alloc<A = Global> + Sync>(
    rt: &R,
    house: &House<V, NoKeep, H>,
    caller: &mut Caller<V, H>,
) {
    let started = start_processes(rt, house, &mut caller.seat, caller.starts);
    let stayed = never_falls(&mut caller.seat, caller.looks);
    caller.fine = started && stayed;
}

// Each acts in a thread of its own.
fn all_act<
    V: Version + Send + Sync,
    H: Home + Send + Sync,
    R: Threads + Wait + Abort + Alloc<A = Global> + Sync,
>(rt: &R, house: &House<V, NoKeep, H>, callers: &mut [Caller<V, H>]) {
    thread::for_each_mut(
        rt,
        callers,
        4,
        &|_, caller: &mut Caller<V, H>| { act(rt, house, caller) },
    );
}

fn calling<V: Version, H: Home>(seat: Seat<V, H>) -> Caller<V, H> {
    Caller {
        seat,
        starts: 0,
        looks: 0,
        fine: false,
    }
}

// How often a caller is to act.
fn set<V: Version, H: Home>(caller: &mut Caller<V, H>, starts: u64, looks: u64) {
    caller.starts = starts;
    caller.looks = looks;
}

// Both act, the one by asking the desk so many times and the other so, which also looks so often.
fn act_both<
    V: Version + Send + Sync,
    H: Home + Send + Sync,
    R: Threads + Wait + Abort + Alloc<A = Global> + Sync,
>(
    rt: &R,
    house: &House<V, NoKeep, H>,
    callers: &mut [Caller<V, H>; 2],
    starts: (u64, u64),
    looks: u64,
) {
    set(&mut callers[0], starts.0, 0);
    set(&mut callers[1], starts.1, looks);
    all_act(rt, house, callers);
    assert!(rt; callers[0].fine && callers[1].fine);
}

// One asks the desk while the other looks; then both ask, and meet.
fn beside_one_another<
    V: Version + Send + Sync,
    H: Home + Send + Sync,
    R: Threads + Wait + Abort + Alloc<A = Global> + Sync,
>(rt: &R, house: &House<V, NoKeep, H>, mut callers: [Caller<V, H>; 2]) {
    act_both(rt, house, &mut callers, (30, 0), 200);
    assert!(rt; callers[1].seat.version() == 30);
    act_both(rt, house, &mut callers, (10, 10), 10);
    let [mut one, mut two] = callers;
    meet_at_last(rt, house, &mut one.seat, &mut two.seat);
}

fn meet_at_last<V: Version, H: Home, R: Wait + Abort>(
    rt: &R,
    house: &House<V, NoKeep, H>,
    one: &mut Seat<V, H>,
    two: &mut Seat<V, H>,
) {
    house.meet(rt, one, two);
    let versions = (one.shown().version(), two.shown().version());
    assert_eq!(rt; (versions, one.made(), two.made()), ((50, 50), 40, 10));
}

fn two_callers<
    V: Version + Send + Sync,
    H: Home + Send + Sync,
    R: Threads + Wait + Abort + Alloc<A = Global> + Sync,
>(rt: &R, opened: Opened, blank: Blank)
    requires room { opened ≡ H.book }
    requires ledger { (blank.name ≡ H.name) × (blank.parts ≡ H.parts) }
    requires seats { (H.all ≡ 2) × (H.parts ≡ 2) }
{
    let (house, mut seats) = house_of_two::<V, H, R>(rt, opened, blank);
    let one = seats.seat(0).expect(rt, "seat 0");
    let two = seats.seat(1).expect(rt, "seat 1");
    beside_one_another(rt, &house, [calling(one), calling(two)]);
}

#[test]
fn threads_share_one_history(rt: HostRuntime) {
    let (opened, blank) = house_room(2);
    two_callers::<Edition, Brand, _>(&rt, opened, blank)
}
