//! A connection's bytes, from its session to its link and back.

ghost use Rattle.std.specs.Prelude.{◌≡◌, [], None, IfNone};
ghost use Rattle.pm_model.specs.Lines.{cut};
ghost use Rattle.pm_io.specs.Wires.{IsLater};
ghost use Rattle.pm_session.specs.Streams.{HasReplyRoom};
ghost use Rattle.pm_worker.specs.Turns.{Sends, IsSent, IsClosed, IsFed};

use crate::turns::Turn;
use pm_io::{Link, LinkRead, LinkWrite};
use pm_session::Session;

/// Writes the output until none is left. Else the turn ends: Idle where the link takes no more now, LinkFault where it
/// has failed.
pub(crate) fn send<L: Link>(link: &mut L, session: &mut Session) -> Option<Turn>
    ensures sends { Sends (L.wire link.old) (L.wire link.new) session.old session.new }
    ensures why { IsSent (L.wire link.old) (L.wire link.new) session.new.output result }
    ensures all { IfNone result (session.new.output ≡ []) }
{
    while !session.out().is_empty() {
        match link.write(session.out()) {
            LinkWrite::Took(count) => session.sent(count),
            LinkWrite::Again => return Some(Turn::Idle),
            LinkWrite::Failed => return Some(Turn::LinkFault),
        }
    }
    None
}

/// Room for a reply: where it is lacking, the output is sent.
pub(crate) fn make_room<L: Link>(link: &mut L, session: &mut Session) -> Option<Turn>
    ensures sends { Sends (L.wire link.old) (L.wire link.new) session.old session.new }
    ensures why { IsSent (L.wire link.old) (L.wire link.new) session.new.output result }
    ensures room { IfNone result (HasReplyRoom session.new.output) }
{
    if session.has_room() {
        return None;
    }
    send(link, session)
}

/// Sends the output, and says how a turn ends that has had its share.
pub(crate) fn close<L: Link>(link: &mut L, session: &mut Session) -> Turn
    ensures sends { Sends (L.wire link.old) (L.wire link.new) session.old session.new }
    ensures why { IsClosed (L.wire link.old) (L.wire link.new) session.new.output result }
{
    match send(link, session) {
        None => Turn::More,
        Some(turn) => turn,
    }
}

/// Reads a piece, which then waits.
pub(crate) fn feed<L: Link>(link: &mut L, session: &mut Session) -> LinkRead
    requires drained { cut session.old.waiting ≡ None }
    ensures fed { IsFed (L.wire link.old) (L.wire link.new) session.old session.new result }
    ensures taken { (L.wire link.new).taken ≡ (L.wire link.old).taken }
    ensures later { IsLater (L.wire link.old) (L.wire link.new) }
    ensures output { session.new.output ≡ session.old.output }
{
    let mut piece = [0u8; 4096];
    let target = &mut piece[..];
    match link.read(target) {
        LinkRead::Got(count) => {
            session.push(&target[..count]);
            LinkRead::Got(count)
        }
        LinkRead::End => LinkRead::End,
        LinkRead::Again => LinkRead::Again,
        LinkRead::Failed => LinkRead::Failed,
    }
}
