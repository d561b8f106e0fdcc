//! A feed over a list.

ghost use Rattle.std.specs.Prelude.{◌≡◌, ◌++◌, ◌∷◌, true, false, Some, None, [], IfOk, IfSome, IfNone, if◌then◌else◌, slice_get};
ghost use Rattle.pm_worker.specs.Feeding.{number_out, Gives, goes_on};

use crate::conn::Conn;
use crate::feeds::{Feed, Next};
use crate::served::Served;
use crate::turns::Turn;
use pm_io::Link;
use pm_machine::Version;
use pm_model::Memory;
use std::alloc::Global;
use std::marker::Model;

/// The connections of a list, each of which has one turn after another, by turns with the others, until it has ended, its
/// link has failed, or there was no memory.
pub struct ListFeed<L> {
    going: Vec<Conn<L>>,
    out: Option<u64>,
    done: Vec<Served<L>>,
    stopped: bool,
}

impl<L> Model for ListFeed<L> {
    ghost use Rattle.std.specs.Prelude.{vec_capacity};
    ghost use Rattle.pm_worker.specs.Feeding.{Listed, HasRoom};

    ghost Value = { Listed L };

    ghost view = { λ f. record { going = f.going.items; out = f.out; done = f.done.items; stopped = f.stopped } };

    ghost invariant = { λ f. HasRoom f.going.items f.out f.done.items (vec_capacity f.going) (vec_capacity f.done) };
}

impl<L: Drop> Drop for ListFeed<L> {
    fn drop(self) {
        let ListFeed {
            going: _,
            out: _,
            done: _,
            stopped: _,
        } = self;
    }
}

impl<L: Drop> ListFeed<L> {
    /// A feed over these connections.
    pub fn new(alloc: Global, conns: Vec<Conn<L>>) -> Result<ListFeed<L>, Memory>
        ensures { IfOk result (λ f. f ≡ record { going = conns.items; out = None; done = []; stopped = false }) }
    {
        let done = Vec::with_capacity(alloc, conns.len())?;
        Ok(ListFeed {
            going: conns,
            out: None,
            done,
            stopped: false,
        })
    }
}

impl<L> ListFeed<L> {
    /// Of the connections whose last turn is over, in the order in which they came to that, the one at this place.
    pub fn done(&self, i: usize) -> Option<&Served<L>>
        ensures some { IfSome result (λ served. slice_get self.now.done i ≡ Some served.now) }
        ensures none { IfNone result (slice_get self.now.done i ≡ None) }
    {
        self.done.get(i)
    }
}

fn goes_on(turn: Turn) -> bool
    ensures { result ≡ goes_on turn }
{
    match turn {
        Turn::Idle | Turn::More => true,
        Turn::Ended | Turn::LinkFault | Turn::Memory => false,
    }
}

impl<L: Link + Drop> Feed<L> for ListFeed<L> {
    ghost out = { λ f. f.out };

    ghost stopped = { λ f. f.stopped };

    fn next(&mut self) -> Next<L>
        requires { self.old.out ≡ None }
        ensures given { (self.new.out ≡ number_out result) × (self.new.out ≡ None → self.new.stopped ≡ true) }
        ensures exact { Gives self.old self.new result }
    {
        if self.going.is_empty() {
            self.stopped = true;
            return Next::Stop;
        }
        let conn = self.going.remove(0);
        self.out = Some(conn.number());
        Next::Turn(conn)
    }

    fn back(&mut self, served: Served<L>)
        requires { self.old.out ≡ Some served.conn.number }
        ensures out { self.new.out ≡ None }
        ensures exact { self.new ≡ (if goes_on served.turn then record self.old { out = None; going = self.old.going ++ served.conn ∷ [] }
            else record self.old { out = None; done = self.old.done ++ served ∷ [] }) }
    {
        self.out = None;
        if goes_on(served.turn()) {
            self.going.push_reserved(served.into_conn());
            return;
        }
        self.done.push_reserved(served);
    }

    fn saw<V: Version>(&self, _version: &V) {}
}
