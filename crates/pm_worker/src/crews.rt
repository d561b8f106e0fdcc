//! Workers in threads of their own.

ghost use Rattle.std.specs.Prelude.{◌≡◌, ◌<◌, ℕ, None, true, All, length, slice_index_or};
ghost use mathlib.Core.List.{IsPrefix};
ghost use Rattle.pm_house.specs.Desks.{NeverFails};
ghost use Rattle.pm_house.specs.Seated.{Rests};
ghost use Rattle.pm_worker.specs.Feeding.{Works, WorksAndMeets, HasMet};

use crate::feeds::{Feed, work};
use crate::gates::Gate;
use crossbeam_utils::rule::Protocol;
use pm_house::{Home, House, Seat};
use pm_io::Link;
use pm_machine::Version;
use pm_model::Keep;
use pm_publish::{Glimpse, NeverBack, Sealed};
use std::alloc::Global;
use std::sync::Wait;
use std::thread;
use std::thread::Threads;

/// A worker: a seat, and what feeds it.
pub struct Crew<F, V: Version, H: Home>
where
    NeverBack: Protocol<Sealed<V, H>, Glimpse>,
{
    pub seat: Seat<V, H>,
    pub feed: F,
}

impl<F: Drop, V: Version, H: Home> Drop for Crew<F, V, H>
where
    NeverBack: Protocol<Sealed<V, H>, Glimpse>,
{
    fn drop(self) {
        let Crew { seat: _, feed: _ } = self;
    }
}

fn work_one<
    L: Link + Drop,
    V: Version,
    K: Keep + Drop,
    H: Home,
    G: Gate,
    F: Feed<L>,
    R: Threads + Wait + Sync,
>(rt: &R, alloc: Global, house: &House<V, K, H>, gate: &G, member: &mut Crew<F, V, H>)
    requires { F.out member.old.feed ≡ None }
    ensures stopped { F.stopped member.new.feed ≡ true }
    ensures works { Works (NeverFails K.faults) member.old.seat member.new.seat }
{
    work(rt, alloc, house, &mut member.seat, &mut member.feed, gate)
}

// Each member works, until its feed has stopped.
fn work_all<
    L: Link + Drop + Send,
    V: Version + Send + Sync,
    K: Keep + Drop + Send,
    H: Home + Send + Sync,
    G: Gate + Send + Sync,
    F: Feed<L> + Send + Drop,
    R: Threads + Wait + Sync,
>(rt: &R, alloc: Global, house: &House<V, K, H>, crew: &mut [Crew<F, V, H>], gate: &G)
    requires { All (λ m. F.out m.feed ≡ None) crew.old }
    ensures count { length crew.new ≡ length crew.old }
    ensures stopped { (i : ℕ) (d : _) → i < length crew.old → F.stopped (slice_index_or crew.new i d).feed ≡ true }
    ensures works { (i : ℕ) (d : _) → i < length crew.old → Works (NeverFails K.faults) (slice_index_or crew.old i d).seat (slice_index_or crew.new i d).seat }
{
    thread::for_each_mut(
        rt,
        crew,
        32,
        &|_, member: &mut Crew<F, V, H>|
            requires { F.out member.old.feed ≡ None }
            ensures stopped { F.stopped member.new.feed ≡ true }
            ensures works { Works (NeverFails K.faults) member.old.seat member.new.seat }
        { work_one(rt, alloc, house, gate, member) },
    );
}

// One seat meets each member's.
fn meet_each<V: Version, K: Keep + Drop, H: Home, F, R: Wait>(
    rt: &R,
    house: &House<V, K, H>,
    first: &mut Seat<V, H>,
    others: &mut [Crew<F, V, H>],
)
    ensures first { Rests first.old first.new }
    ensures count { length others.new ≡ length others.old }
    ensures met { (i : ℕ) (d : _) → i < length others.old → HasMet first.new (slice_index_or others.old i d).seat (slice_index_or others.new i d).seat (slice_index_or others.old i d).feed (slice_index_or others.new i d).feed }
{
    first.still();
    for place in 0..others.len() {
        house.meet(rt, first, &mut others[place].seat);
    }
}

// The first member's seat meets each other member's.
fn meet_all<V: Version, K: Keep + Drop, H: Home, F, R: Wait>(
    rt: &R,
    house: &House<V, K, H>,
    crew: &mut [Crew<F, V, H>],
)
    ensures count { length crew.new ≡ length crew.old }
    ensures met { (i : ℕ) (d : _) → i < length crew.old → HasMet (slice_index_or crew.new 0 d).seat (slice_index_or crew.old i d).seat (slice_index_or crew.new i d).seat (slice_index_or crew.old i d).feed (slice_index_or crew.new i d).feed }
{
    if let Some((first, others)) = crew.split_first_mut() {
        meet_each(rt, house, &mut first.seat, others);
    }
}

/// Each member works in a thread of its own, until its feed has stopped; where no thread can be made, members work one
/// after another. Once all have ended, the first member's seat meets each other one's, so that what each shows begins what
/// the first one shows. All the lines that a member's seat has answered are one transcript of it, whoever asked them.
pub fn run_workers<
    L: Link + Drop + Send,
    V: Version + Send + Sync,
    K: Keep + Drop + Send,
    H: Home + Send + Sync,
    G: Gate + Send + Sync,
    F: Feed<L> + Send + Drop,
    R: Threads + Wait + Sync,
>(rt: &R, alloc: Global, house: &House<V, K, H>, crew: &mut [Crew<F, V, H>], gate: &G)
    requires { All (λ m. F.out m.feed ≡ None) crew.old }
    ensures stopped { (i : ℕ) (d : _) → i < length crew.old → F.stopped (slice_index_or crew.new i d).feed ≡ true }
    ensures works { (i : ℕ) (d : _) → i < length crew.old → WorksAndMeets (NeverFails K.faults) (slice_index_or crew.old i d).seat (slice_index_or crew.new i d).seat }
    ensures met { (i : ℕ) (d : _) → i < length crew.old → IsPrefix (slice_index_or crew.new i d).seat.machine.history (slice_index_or crew.new 0 d).seat.machine.history }
{
    work_all(rt, alloc, house, crew, gate);
    meet_all(rt, house, crew);
}
