//! A turn.

ghost use Rattle.std.specs.Prelude.{◌≡◌};
ghost use Rattle.pm_house.specs.Desks.{NeverFails};
ghost use Rattle.pm_worker.specs.Turns.{Serves};

use crate::answering::answer_line;
use crate::conn::Conn;
use crate::gates::Gate;
use crate::sending::{close, feed, make_room, send};
use crate::shares::WHOLE;
use crate::turns::Turn;
use pm_house::{Home, House, Seat};
use pm_io::{Link, LinkRead};
use pm_machine::Version;
use pm_model::{Keep, Memory};
use pm_session::Session;
use std::alloc::Global;
use std::sync::Wait;
use std::thread::Threads;

// A turn over a link and a session.
fn serve<L: Link, V: Version, K: Keep + Drop, H: Home, G: Gate, R: Threads + Wait + Sync>(
    rt: &R,
    alloc: Global,
    house: &House<V, K, H>,
    seat: &mut Seat<V, H>,
    link: &mut L,
    session: &mut Session,
    gate: &G,
) -> Turn
    ensures { Serves (NeverFails K.faults) seat.old seat.new session.old session.new (L.wire link.old) (L.wire link.new) result }
{
    seat.still();
    session.shaped();
    if let Some(turn) = send(link, session) {
        return turn;
    }
    let mut share = 0u32;
    let mut total = 0usize;
    loop {
        if share >= WHOLE || total >= 65536 {
            return close(link, session);
        }
        if let Some(turn) = make_room(link, session) {
            return turn;
        }
        match answer_line(rt, alloc, house, seat, session, gate) {
            Ok(Some(more)) => {
                share += more;
                continue;
            }
            Ok(None) => {}
            Err(Memory) => {
                let _sent = send(link, session);
                return Turn::Memory;
            }
        }
        if let Some(turn) = send(link, session) {
            return turn;
        }
        match feed(link, session) {
            LinkRead::Got(count) => total += count,
            LinkRead::End => return Turn::Ended,
            LinkRead::Again => return Turn::Idle,
            LinkRead::Failed => return Turn::LinkFault,
        }
    }
}

/// One turn of a connection. A `survey` among its lines may start threads, which end within the turn.
pub fn serve_turn<L: Link, V: Version, K: Keep + Drop, H: Home, G: Gate, R: Threads + Wait + Sync>(
    rt: &R,
    alloc: Global,
    house: &House<V, K, H>,
    seat: &mut Seat<V, H>,
    conn: &mut Conn<L>,
    gate: &G,
) -> Turn
    ensures serves { Serves (NeverFails K.faults) seat.old seat.new conn.old.session conn.new.session (L.wire conn.old.link) (L.wire conn.new.link) result }
    ensures number { conn.new.number ≡ conn.old.number }
{
    serve(
        rt,
        alloc,
        house,
        seat,
        &mut conn.link,
        &mut conn.session,
        gate,
    )
}
