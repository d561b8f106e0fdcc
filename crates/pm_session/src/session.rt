//! What has come of a connection, and what is to be sent.
ghost use Rattle.std.specs.Prelude.{◌≡◌, ◌↔◌, ◌≤◌, ◌<◌, ◌+◌, ◌++◌, [], length, take, drop, Some, None, IfOk, OnOk, OnErr, IsOk, IsTrue, option_map};
ghost use Rattle.pm_model.specs.Lines.{shape, cut};
ghost use Rattle.pm_model.specs.Nameable.{IsNameable};
ghost use Rattle.pm_model.specs.Text.{text, bad_text};
ghost use Rattle.pm_print.specs.Growth.{reply_most};
ghost use Rattle.pm_session.specs.Streams.{HasReplyRoom};

use crate::waiting::{LONGEST, ROOM, line_at, part, push_bytes, remove_front};
use pm_model::{BadLine, LineEvent, Memory, NameOf, Reply};
use pm_print::{LONGEST_REPLY, print_bad, print_reply};
use std::alloc::Global;
use std::marker::Model;

// How many bytes of replies are written together, but for one that is longer.
const TOGETHER: usize = 16384;

/// What has come and isn't answered yet, and what is to be sent. Contracts see the two lists of
/// bytes. The input buffer of 16,384 bytes is taken once, whatever comes, and so is the output's:
/// it grows for a reply that is longer alone, and what it has grown is given back once all is sent.
pub struct Session {
    waiting: Vec<u8>,
    // The bytes before this place were taken.
    start: usize,
    // How many of the bytes that wait are of the last line, which isn't whole yet.
    tail: usize,
    output: Vec<u8>,
    // The bytes of the output before this place were sent.
    unsent: usize,
}

impl Drop for Session {
    fn drop(self) {
        let Session {
            waiting: _,
            start: _,
            tail: _,
            output: _,
            unsent: _,
        } = self;
    }
}

impl Model for Session {
    ghost use Rattle.pm_session.specs.Streams.{Streams};

    ghost Value = { Streams };

    ghost use Rattle.pm_session.specs.Held.{IsHeld, streams_of};

    ghost view = { streams_of };

    ghost invariant = { IsHeld };
}

impl Session {
    ghost use Rattle.std.specs.Borrow.{sem};
    ghost use Rattle.std.specs.Io.BufRead.{Rests};
    ghost use Rattle.pm_session.specs.contracts.session.Session.{the_row};
    ghost use Rattle.pm_session.specs.Taken.{shown, first_event, LeavesRest};

    /// Nothing waits. Memory where there is none for the two buffers.
    pub fn new(alloc: Global) -> Result<Session, Memory>
        ensures { IfOk result (λ s. s ≡ record { waiting = []; output = [] }) }
    {
        Ok(Session {
            waiting: Vec::with_capacity(alloc, ROOM)?,
            start: 0,
            tail: 0,
            output: Vec::with_capacity(alloc, TOGETHER)?,
            unsent: 0,
        })
    }

    /// Takes some of the first bytes, and says how many. A line of more than 8,192 bytes is kept as
    /// 8,193 spaces, however long it grows.
    pub fn push(&mut self, bytes: &[u8]) -> usize
        ensures waiting { self.new.waiting ≡ shape (self.old.waiting ++ take result bytes.now) }
        ensures output { self.new.output ≡ self.old.output }
        ensures count { result ≤ length bytes.now }
        ensures all { cut self.old.waiting ≡ None → length bytes.now ≤ 4096 → result ≡ length bytes.now }
        ensures some { cut self.old.waiting ≡ None → 0 < length bytes.now → 0 < result }
    {
        let start = self.start;
        remove_front(&mut self.waiting, start);
        self.start = 0;
        let pushed = push_bytes(&mut self.waiting, self.tail, bytes);
        self.tail = pushed.tail;
        pushed.count
    }

    /// The first line that waits, without its line feed. It and its line feed wait no more. None
    /// where no line is whole.
    pub fn take(&mut self) -> Option<LineEvent<'_>>
        ensures shows { option_map shown result ≡ first_event self.old.waiting }
        ensures* after_borrow { sem 𝓛 (Rests the_row self.entry (LeavesRest self.old)) }
    {
        let start = self.start;
        let unread = self.waiting.len() - start;
        if unread == self.tail {
            // No whole line waits, so there is no need to search the bytes again.
            return None;
        }
        let Some(count) = line_at(&self.waiting, start) else {
            return None;
        };
        self.start = start + count + 1;
        let line = part(&self.waiting, start, count);
        if line.len() > LONGEST {
            return Some(LineEvent::TooLong);
        }
        Some(LineEvent::Line(line))
    }

    /// Whether the output has room for 1,024 bytes more among 16,384, which any reply fits in but one with a list.
    pub fn has_room(&self) -> bool
        ensures { IsTrue result ↔ HasReplyRoom self.now.output }
    {
        self.output.len() - self.unsent <= TOGETHER - LONGEST_REPLY
    }

    /// Appends the line of the reply to the output. On Memory all is as before; it is Ok where the output is short of
    /// 16,384 bytes by 1,024, and by 90 more with each item of a review's list. `names` is as in `print_reply`.
    pub fn reply<N: NameOf>(
        &mut self,
        id: Option<u64>,
        version: u64,
        reply: &Reply,
        names: &N,
    ) -> Result<(), Memory>
        requires { IsNameable (N.named names.now) reply.now }
        ensures ok { OnOk result (self.new.output ≡ self.old.output ++ text id version (N.name_at names.now) reply.now) }
        ensures err { OnErr result (self.new.output ≡ self.old.output) }
        ensures fits { length self.old.output + reply_most reply.now ≤ TOGETHER → IsOk result }
        ensures waiting { self.new.waiting ≡ self.old.waiting }
    {
        let unsent = self.unsent;
        remove_front(&mut self.output, unsent);
        self.unsent = 0;
        print_reply(id, version, reply, names, &mut self.output)
    }

    /// Appends the line of a bad form to the output, as `reply` does. It names no element.
    pub fn bad(&mut self, id: Option<u64>, version: u64, bad: &BadLine) -> Result<(), Memory>
        ensures ok { OnOk result (self.new.output ≡ self.old.output ++ bad_text id version bad.now) }
        ensures err { OnErr result (self.new.output ≡ self.old.output) }
        ensures fits { HasReplyRoom self.old.output → IsOk result }
        ensures waiting { self.new.waiting ≡ self.old.waiting }
    {
        let unsent = self.unsent;
        remove_front(&mut self.output, unsent);
        self.unsent = 0;
        print_bad(id, version, bad, &mut self.output)
    }

    /// What each session keeps: the bytes that wait are kept as lines are.
    pub fn shaped(&self)
        ensures { shape self.now.waiting ≡ self.now.waiting }
    {
        let _start = self.start;
    }

    /// The bytes that are to be sent.
    pub fn out(&self) -> &[u8]
        ensures { result.now ≡ self.now.output }
    {
        &self.output[self.unsent..]
    }

    /// The first n bytes of the output were sent. Once all are, the output has its 16,384 bytes of memory again.
    pub fn sent(&mut self, n: usize)
        requires { n ≤ length self.old.output }
        ensures output { self.new.output ≡ drop n self.old.output }
        ensures waiting { self.new.waiting ≡ self.old.waiting }
    {
        self.unsent += n;
        if self.unsent == self.output.len() {
            self.output.truncate(0);
            self.output.shrink_to(TOGETHER);
            self.unsent = 0;
        }
    }
}
