//! Houses of two seats that go on from a history.

ghost use Rattle.std.specs.Prelude.{◌≡◌};

use super::asking::{Ask, Told, is_told, request};
use pm_house::{Home, House, Nobody, RestoreError, Seat, Seats, house_room};
use pm_io::NoKeep;
use pm_machine::Version;
use pm_model::Entry;
use pm_publish::Opened;
use pm_step::Edition;
use std::alloc::Global;
use std::marker::Brand;
use std::process::Abort;
use std::sync::Wait;
use std::sync::ledger::Blank;
use std::thread::Threads;

// The class of this name, made by a seat as its entry of this number.
fn entry<R: Abort + Alloc<A = Global>>(rt: &R, seat: u32, nth: u64, name: &'static str) -> Entry {
    let request = request(rt, Ask::Class(name));
    Entry { seat, nth, request }
}

fn restored<V: Version, H: Home, R: Threads + Wait + Abort + Alloc<A = Global> + Sync>(
    rt: &R,
    opened: Opened,
    blank: Blank,
    entries: &[Entry],
) -> Result<(House<V, NoKeep, H>, Seats<V, H>), RestoreError>
    requires room { opened ≡ H.book }
    requires ledger { (blank.name ≡ H.name) × (blank.parts ≡ H.parts) }
    requires seats { (H.all ≡ 2) × (H.parts ≡ 2) }
{
    House::restore(
        rt,
        rt.alloc(),
        opened,
        blank,
        NoKeep,
        entries,
        2,
        &mut Nobody,
    )
}

// What a seat shows, and how many entries it has made.
fn standing<V: Version, H: Home>(seat: &Seat<V, H>) -> (u32, u64, u64) {
    (seat.number(), seat.shown().version(), seat.made())
}

// Each seat makes one entry more.
fn both_go_on<V: Version, H: Home, R: Threads + Wait + Abort + Alloc<A = Global> + Sync>(
    rt: &R,
    house: &House<V, NoKeep, H>,
    one: &mut Seat<V, H>,
    two: &mut Seat<V, H>,
) {
    assert_eq!(rt; (standing(one), standing(two)), ((0, 3, 2), (1, 3, 1)));
    is_told(rt, house, one, &request(rt, Ask::Class("d")), Told::Done, 4);
    is_told(rt, house, two, &request(rt, Ask::Class("e")), Told::Done, 5);
    one.compare(two);
    assert_eq!(rt; (standing(one), standing(two)), ((0, 4, 3), (1, 5, 2)));
}

fn three_entries<V: Version, H: Home, R: Threads + Wait + Abort + Alloc<A = Global> + Sync>(
    rt: &R,
    opened: Opened,
    blank: Blank,
)
    requires room { opened ≡ H.book }
    requires ledger { (blank.name ≡ H.name) × (blank.parts ≡ H.parts) }
    requires seats { (H.all ≡ 2) × (H.parts ≡ 2) }
{
    let entries = [
        entry(rt, 0, 1, "a"),
        entry(rt, 1, 1, "b"),
        entry(rt, 0, 2, "c"),
    ];
    let Ok((house, mut seats)) = restored::<V, H, R>(rt, opened, blank, &entries) else {
        panic!(rt; "not restored")
    };
    let mut one = seats.seat(0).expect(rt, "seat 0");
    let mut two = seats.seat(1).expect(rt, "seat 1");
    both_go_on(rt, &house, &mut one, &mut two);
}

#[test]
fn a_house_goes_on_from_a_history(rt: HostRuntime) {
    let (opened, blank) = house_room(2);
    three_entries::<Edition, Brand, _>(&rt, opened, blank)
}
