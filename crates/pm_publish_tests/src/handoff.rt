//! Hand-offs of numbers, in one thread and in two, with answers worked out by hand.

ghost use Rattle.std.specs.Prelude.{◌≡◌};

use pm_handoff::{Ends, Giver, Handoff, Numbered, Refused, Taker};
use std::process::Abort;
use std::sync::Wait;
use std::thread;
use std::thread::Threads;

/// An item that is its number alone.
#[derive(Drop)]
struct Item(u64);

impl Numbered for Item {
    ghost number = { λ item. item.0 };

    fn number(&self) -> u64 {
        self.0
    }
}

/// Whether the item with this number is given; one that finds no room comes back.
fn gives<R: Wait + Abort>(
    rt: &R,
    queue: &Handoff<Item>,
    giver: &mut Giver<Item>,
    number: u64,
) -> bool
    requires { giver.old.place ≡ queue.now.place }
    ensures { giver.new.place ≡ giver.old.place }
{
    match queue.give(rt, giver, Item(number)) {
        Ok(()) => true,
        Err(Refused::Full(back)) => {
            assert!(rt; back.number() == number);
            false
        }
    }
}

/// The number of the item that is taken, or none.
fn takes<R: Wait>(rt: &R, queue: &Handoff<Item>, taker: &mut Taker<Item>) -> Option<u64>
    requires { taker.old.place ≡ queue.now.place }
    ensures { taker.new.place ≡ taker.old.place }
{
    let item = queue.take(rt, taker)?;
    Some(item.number())
}

fn two_are_given<R: Wait + Abort>(rt: &R, queue: &Handoff<Item>, giver: &mut Giver<Item>)
    requires { giver.old.place ≡ queue.now.place }
    ensures { giver.new.place ≡ giver.old.place }
{
    assert!(rt; gives(rt, queue, giver, 7));
    assert!(rt; gives(rt, queue, giver, 8));
    assert!(rt; !gives(rt, queue, giver, 9));
}

fn two_are_taken<R: Wait + Abort>(rt: &R, queue: &Handoff<Item>, taker: &mut Taker<Item>)
    requires { taker.old.place ≡ queue.now.place }
{
    assert!(rt; takes(rt, queue, taker) == Some(7));
    assert!(rt; takes(rt, queue, taker) == Some(8));
    assert!(rt; takes(rt, queue, taker) == None);
}

#[test]
fn two_fit_and_come_in_order(rt: HostRuntime) {
    let Ends {
        queue,
        mut giver,
        mut taker,
    } = Handoff::new(rt.alloc(), 2).expect(&rt, "memory");
    two_are_given(&rt, &queue, &mut giver);
    queue.compare(&mut giver, &mut taker);
    two_are_taken(&rt, &queue, &mut taker);
}

/// Gives the item with this number, again and again until there is room.
fn give_one<R: Wait>(rt: &R, queue: &Handoff<Item>, giver: &mut Giver<Item>, number: u64)
    requires { giver.old.place ≡ queue.now.place }
    ensures { giver.new.place ≡ giver.old.place }
{
    let mut item = Item(number);
    for _ in rt.forever() {
        match queue.give(rt, giver, item) {
            Ok(()) => return,
            Err(Refused::Full(back)) => item = back,
        }
        thread::yield_now();
    }
}

fn give_all<R: Wait>(rt: &R, queue: &Handoff<Item>, mut giver: Giver<Item>, last: u64)
    requires { giver.place ≡ queue.now.place }
{
    for number in 0..last {
        give_one(rt, queue, &mut giver, number);
    }
}

/// Takes one item, waiting until there is one, and tells its number.
fn take_one<R: Wait>(rt: &R, queue: &Handoff<Item>, taker: &mut Taker<Item>) -> u64
    requires { taker.old.place ≡ queue.now.place }
    ensures { taker.new.place ≡ taker.old.place }
{
    for _ in rt.forever() {
        if let Some(item) = queue.take(rt, taker) {
            return item.number();
        }
        thread::yield_now();
    }
    unreachable!()
}

/// How many of so many items come in order, before the first that doesn't.
fn count_in_order<R: Wait>(rt: &R, queue: &Handoff<Item>, mut taker: Taker<Item>, last: u64) -> u64
    requires { taker.place ≡ queue.now.place }
{
    for number in 0..last {
        if take_one(rt, queue, &mut taker) != number {
            return number;
        }
    }
    last
}

fn run_both<R: Threads + Wait + Sync>(rt: &R, ends: Ends<Item>, last: u64) -> u64
    requires giver { ends.giver.place ≡ ends.queue.place }
    requires taker { ends.taker.place ≡ ends.queue.place }
{
    let Ends {
        queue,
        giver,
        taker,
    } = ends;
    let line = &queue;
    let (_, in_order) = thread::join(
        rt,
        move ||
            requires { giver.place ≡ line.now.place }
        { give_all(rt, line, giver, last) },
        move ||
            requires { taker.place ≡ line.now.place }
        { count_in_order(rt, line, taker, last) },
    );
    in_order
}

#[test]
fn a_hundred_come_in_order_from_another_thread(rt: HostRuntime) {
    let ends = Handoff::new(rt.alloc(), 2).expect(&rt, "memory");
    assert!(rt; run_both(&rt, ends, 100) == 100);
}
