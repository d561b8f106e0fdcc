//! Bytes are moved out of a queue and into a vector with room.
ghost use Rattle.std.specs.Prelude.{◌≡◌, ◌<◌, ◌≤◌, ◌-◌, ◌++◌, [], min, length, take, vec_len, vec_capacity};

use std::collections::VecDeque;
use std::io::Read;

// Moves the first bytes to the front of the piece, and says how many.
pub(crate) fn give(bytes: &mut VecDeque<u8>, piece: &mut [u8]) -> usize
    ensures bound { result ≤ length piece.new }
    ensures moved { bytes.old.items ≡ take result piece.new ++ bytes.new.items }
    ensures end { result ≡ 0 → 0 < length piece.new → bytes.new.items ≡ [] }
{
    let Ok(count) = bytes.read(piece) else {
        unreachable!()
    };
    count
}

// Takes as many of the first bytes of the piece as there is room for, and says how many.
pub(crate) fn store(taken: &mut Vec<u8>, room: usize, piece: &[u8]) -> usize
    requires within { vec_len taken.old ≤ room }
    requires held { room ≤ vec_capacity taken.old }
    ensures count { result ≡ min (room - length taken.old.items) (length piece.now) }
    ensures items { taken.new.items ≡ taken.old.items ++ take result piece.now }
    ensures within { vec_len taken.new ≤ room }
    ensures held { room ≤ vec_capacity taken.new }
{
    let count = (room - taken.len()).min(piece.len());
    let Ok(()) = taken.extend_from_slice(&piece[..count]) else {
        unreachable!()
    };
    count
}
