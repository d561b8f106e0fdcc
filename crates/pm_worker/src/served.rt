//! A connection that has had a turn.

ghost use Rattle.std.specs.Prelude.{◌≡◌};
ghost use Rattle.pm_house.specs.Desks.{NeverFails};
ghost use Rattle.pm_worker.specs.Served.{IsServed};
ghost use Rattle.pm_worker.specs.Turns.{Serves};

use crate::conn::Conn;
use crate::gates::Gate;
use crate::serving::serve_turn;
use crate::turns::Turn;
use pm_house::{Home, House, Seat};
use pm_io::Link;
use pm_machine::Version;
use pm_model::Keep;
use std::alloc::Global;
use std::marker::Model;
use std::sync::Wait;
use std::thread::Threads;

/// What a turn has made of a connection, and how it ended. Nothing else makes one.
pub struct Served<L> {
    conn: Conn<L>,
    turn: Turn,
}

impl<L> Model for Served<L> {
    ghost use Rattle.pm_worker.specs.Served.{AfterTurn};

    ghost Value = { AfterTurn L };

    ghost view = { λ s. record { conn = s.conn; turn = s.turn } };
}

impl<L: Drop> Drop for Served<L> {
    fn drop(self) {
        let Served { conn: _, turn: _ } = self;
    }
}

impl<L: Link> Served<L> {
    /// A turn of this connection. A `survey` among its lines may start threads, which end within the turn.
    pub fn serve<V: Version, K: Keep + Drop, H: Home, G: Gate, R: Threads + Wait + Sync>(
        rt: &R,
        alloc: Global,
        house: &House<V, K, H>,
        seat: &mut Seat<V, H>,
        conn: Conn<L>,
        gate: &G,
    ) -> Served<L>
        ensures serves { Serves (NeverFails K.faults) seat.old seat.new conn.session result.conn.session (L.wire conn.link) (L.wire result.conn.link) result.turn }
        ensures served { IsServed L.wire result.conn result.turn }
        ensures number { result.conn.number ≡ conn.number }
    {
        let mut conn = conn;
        let turn = serve_turn(rt, alloc, house, seat, &mut conn, gate);
        Served { conn, turn }
    }
}

impl<L> Served<L> {
    /// The connection.
    pub fn conn(&self) -> &Conn<L>
        ensures { result.now ≡ self.now.conn }
    {
        &self.conn
    }

    /// How its turn ended.
    pub fn turn(&self) -> Turn
        ensures { result ≡ self.now.turn }
    {
        self.turn
    }

    /// The connection, for more turns.
    pub fn into_conn(self) -> Conn<L>
        ensures { result ≡ self.conn }
    {
        let Served { conn, turn: _ } = self;
        conn
    }
}
