//! The bytes that wait, in a vector. A line that is too long is kept as spaces.
ghost use Rattle.std.specs.Prelude.{◌≡◌, ◌<◌, ◌≤◌, ◌+◌, ◌-◌, ◌++◌, ◌∷◌, [], length, take, drop, min, vec_len, vec_capacity, MatchOption};
ghost use Rattle.pm_model.specs.Lines.{blank_line};
ghost use Rattle.pm_session.specs.Cuts.{IsCut, HasNoFeed};
ghost use Rattle.pm_session.specs.Waiting.{IsWaiting, HasPushed};

use memchr::memchr;

/// How many bytes may wait at a time.
pub(crate) const ROOM: usize = 16384;

/// How many bytes a line may have, its line feed not counted.
pub(crate) const LONGEST: usize = 8192;

/// How long the first line from a place on is, without its line feed.
pub(crate) fn line_at(bytes: &[u8], start: usize) -> Option<usize>
    requires { start ≤ length bytes.now }
    ensures { MatchOption result (HasNoFeed (drop start bytes.now)) (λ count.
        (start + count < length bytes.now) × IsCut (drop start bytes.now)
        (take count (drop start bytes.now)) (drop (start + count + 1) bytes.now)) }
{
    memchr(b'\n', &bytes[start..])
}

/// So many bytes from a place on.
pub(crate) fn part(bytes: &[u8], start: usize, count: usize) -> &[u8]
    requires { start + count ≤ length bytes.now }
    ensures { result.now ≡ take count (drop start bytes.now) }
{
    &bytes[start..start + count]
}

/// The first n bytes go, and the others move to the front.
pub(crate) fn remove_front(bytes: &mut Vec<u8>, n: usize)
    requires { n ≤ vec_len bytes.old }
    ensures items { bytes.new.items ≡ drop n bytes.old.items }
    ensures capacity { vec_capacity bytes.new ≡ vec_capacity bytes.old }
{
    if n == 0 {
        return;
    }
    let len = bytes.len();
    bytes.as_mut_slice().copy_within(n..len, 0);
    bytes.truncate(len - n);
}

// Appends bytes that have their room.
fn append(waiting: &mut Vec<u8>, bytes: &[u8])
    requires room { vec_len waiting.old + length bytes.now ≤ vec_capacity waiting.old }
    ensures items { waiting.new.items ≡ waiting.old.items ++ bytes.now }
    ensures capacity { vec_capacity waiting.old ≤ vec_capacity waiting.new }
{
    let Ok(()) = waiting.extend_from_slice(bytes) else {
        unreachable!()
    };
}

// The open line, which has this length, gives way to the spaces of one that is too long.
fn blank(waiting: &mut Vec<u8>, tail: usize)
    requires open { tail ≤ vec_len waiting.old }
    requires room { vec_len waiting.old + LONGEST + 1 ≤ vec_capacity waiting.old + tail }
    ensures items { waiting.new.items
        ≡ take (length waiting.old.items - tail) waiting.old.items ++ blank_line }
    ensures capacity { vec_capacity waiting.old ≤ vec_capacity waiting.new }
{
    let closed = waiting.len() - tail;
    waiting.truncate(closed);
    let Ok(()) = waiting.resize(closed + LONGEST + 1, b' ') else {
        unreachable!()
    };
}

// Appends bytes without a line feed, and gives the length of the open line then.
fn push_part(waiting: &mut Vec<u8>, tail: usize, part: &[u8]) -> usize
    requires plain { HasNoFeed part.now }
    requires kept { IsWaiting waiting.old.items tail }
    requires room { vec_len waiting.old + length part.now ≤ vec_capacity waiting.old }
    ensures pushed { HasPushed waiting.old.items waiting.new.items result part.now }
    ensures capacity { vec_capacity waiting.old ≤ vec_capacity waiting.new }
{
    if tail + part.len() <= LONGEST {
        append(waiting, part);
        return tail + part.len();
    }
    blank(waiting, tail);
    LONGEST + 1
}

// Appends the rest of the open line and a line feed.
fn push_line(waiting: &mut Vec<u8>, tail: usize, line: &[u8])
    requires plain { HasNoFeed line.now }
    requires kept { IsWaiting waiting.old.items tail }
    requires room { vec_len waiting.old + length line.now < vec_capacity waiting.old }
    ensures pushed { HasPushed waiting.old.items waiting.new.items 0 (line.now ++ 10 ∷ []) }
    ensures capacity { vec_capacity waiting.old ≤ vec_capacity waiting.new }
{
    push_part(waiting, tail, line);
    append(waiting, b"\n");
}

// Appends bytes that have their room, line by line, and gives the length of the open line then.
fn push_all(waiting: &mut Vec<u8>, tail: usize, bytes: &[u8]) -> usize
    requires kept { IsWaiting waiting.old.items tail }
    requires room { vec_len waiting.old + length bytes.now ≤ vec_capacity waiting.old }
    ensures pushed { HasPushed waiting.old.items waiting.new.items result bytes.now }
    ensures capacity { vec_capacity waiting.old ≤ vec_capacity waiting.new }
{
    let mut tail = tail;
    let mut start = 0;
    while let Some(count) = line_at(bytes, start) {
        push_line(waiting, tail, part(bytes, start, count));
        tail = 0;
        start += count + 1;
    }
    push_part(waiting, tail, &bytes[start..])
}

/// How many of the first bytes were taken, and the length of the open line then.
#[derive(Clone, Copy)]
pub(crate) struct Pushed {
    pub(crate) count: usize,
    pub(crate) tail: usize,
}

/// Takes as many of the first bytes as there is room for.
pub(crate) fn push_bytes(waiting: &mut Vec<u8>, tail: usize, bytes: &[u8]) -> Pushed
    requires kept { IsWaiting waiting.old.items tail }
    requires within { vec_len waiting.old ≤ ROOM }
    requires room { ROOM ≤ vec_capacity waiting.old }
    ensures pushed { HasPushed waiting.old.items waiting.new.items result.tail
        (take result.count bytes.now) }
    ensures capacity { vec_capacity waiting.old ≤ vec_capacity waiting.new }
    ensures count { result.count ≡ min (length bytes.now) (ROOM - length waiting.old.items) }
{
    let count = bytes.len().min(ROOM - waiting.len());
    let tail = push_all(waiting, tail, &bytes[..count]);
    Pushed { count, tail }
}
