//! A link in memory, of which chosen calls fail or can do nothing.

ghost use Rattle.std.specs.Prelude.{◌≡◌, ◌≤◌, ◌<◌, ◌↔◌, ◌++◌, [], drop, take, length, max, IfOk};
ghost use Rattle.pm_io.specs.Wires.{IsLater, IsRead, IsWritten, ReadCounts, WriteCounts};
ghost use Rattle.pm_model.specs.Causes.{raised};
ghost use Rattle.pm_io.specs.MemLinks.{piece_most};

use crate::counting::raise;
use crate::failing::Schedule;
use crate::links::{Link, LinkRead, LinkWrite};
use crate::moving::{give, store};
use pm_model::Memory;
use std::alloc::Global;
use std::collections::VecDeque;
use std::marker::Model;

/// Bytes in memory, and room for bytes. The calls whose numbers it was given fail or can do nothing; of the others a
/// write fails where there is no room left.
pub struct MemLink {
    bytes: VecDeque<u8>,
    pieces: VecDeque<u32>,
    taken: Vec<u8>,
    room: usize,
    agains: Vec<u64>,
    schedule: Schedule,
    faults: u64,
    read_agains: u64,
    write_agains: u64,
}

impl Drop for MemLink {
    fn drop(self) {
        let MemLink {
            bytes: _,
            pieces: _,
            taken: _,
            room: _,
            agains: _,
            schedule: _,
            faults: _,
            read_agains: _,
            write_agains: _,
        } = self;
    }
}

impl Model for MemLink {
    ghost use Rattle.std.specs.Prelude.{◌≤◌, vec_len, vec_capacity};
    ghost use Rattle.pm_io.specs.Devices.{FailingLink};

    ghost Value = { FailingLink };

    ghost view = { λ l. record { left = l.bytes.items; pieces = l.pieces.items; room = l.room; taken = l.taken.items; agains = l.agains.items; failures = l.schedule; faults = l.faults; read_agains = l.read_agains; write_agains = l.write_agains } };

    ghost invariant = { λ l. (vec_len l.taken ≤ l.room) × (l.room ≤ vec_capacity l.taken) };
}

/// What a call is to do.
#[derive(Clone, Copy, PartialEq, Eq)]
enum Call {
    Work,
    Idle,
    Fail,
}

// The most bytes that the next read gives.
fn next_most(pieces: &mut VecDeque<u32>) -> usize
    ensures most { result ≡ piece_most pieces.old.items }
    ensures rest { pieces.new.items ≡ drop 1 pieces.old.items }
{
    match pieces.pop_front() {
        None => 4096,
        Some(most) => most.max(1) as usize,
    }
}

// Moves at most so many of the first bytes to the front of the piece, and says how many.
fn give_most(bytes: &mut VecDeque<u8>, most: usize, piece: &mut [u8]) -> usize
    requires most { 0 < most }
    requires piece { 0 < length piece.old }
    ensures most { result ≤ most }
    ensures bound { result ≤ length piece.new }
    ensures moved { bytes.old.items ≡ take result piece.new ++ bytes.new.items }
    ensures end { result ≡ 0 → (bytes.old.items ≡ []) × (bytes.new.items ≡ []) }
{
    let room = most.min(piece.len());
    give(bytes, &mut piece[..room])
}

impl MemLink {
    ghost use Rattle.pm_io.specs.MemLinks.{IsToFail, IsToIdle};

    /// A link of these bytes. Reads give at most as many bytes as the pieces say, one after another, and then 4,096. The
    /// room is taken now. The calls of these numbers, from 1 on, can do nothing or are to fail.
    pub fn new(
        alloc: Global,
        bytes: &[u8],
        room: usize,
        pieces: &[u32],
        agains: &[u64],
        failing: &[u64],
    ) -> Result<MemLink, Memory>
        ensures { IfOk result (λ l. l ≡ record { left = bytes.now; pieces = pieces.now; room = room; taken = []; agains = agains.now; failures = record { failing = failing.now; calls = 0 }; faults = 0; read_agains = 0; write_agains = 0 }) }
    {
        let held = Vec::from_slice(alloc, bytes)?;
        let most = Vec::from_slice(alloc, pieces)?;
        Ok(MemLink {
            bytes: VecDeque::from(held),
            pieces: VecDeque::from(most),
            taken: Vec::with_capacity(alloc, room)?,
            room,
            agains: Vec::from_slice(alloc, agains)?,
            schedule: Schedule::new(alloc, failing)?,
            faults: 0,
            read_agains: 0,
            write_agains: 0,
        })
    }

    /// The bytes that it took.
    pub fn taken(&self) -> &[u8]
        ensures { result.now ≡ self.now.taken }
    {
        &self.taken
    }

    // What the call of the next number is to do.
    fn next_call(&mut self) -> Call
        ensures fails { (result ≡ Call.Fail) ↔ IsToFail self.old }
        ensures idles { (result ≡ Call.Idle) ↔ IsToIdle self.old }
        ensures calls { self.new ≡ record self.old { failures = record self.old.failures { calls = raised self.old.failures.calls } } }
    {
        if self.schedule.next_fails() {
            return Call::Fail;
        }
        if self.agains.contains(&self.schedule.calls()) {
            return Call::Idle;
        }
        Call::Work
    }
}

impl Link for MemLink {
    ghost use Rattle.pm_io.specs.MemLinks.{wire_of, IsCalled, IsReadAsTold, IsWrittenAsTold};

    ghost wire = { wire_of };

    fn read(&mut self, piece: &mut [u8]) -> LinkRead
        requires { 0 < length piece.old }
        ensures read { IsRead (wire_of self.old) (wire_of self.new) piece.new result }
        ensures counts { ReadCounts (wire_of self.old) (wire_of self.new) result }
        ensures later { IsLater (wire_of self.old) (wire_of self.new) }
        ensures taken { self.new.taken ≡ self.old.taken }
        ensures called { IsCalled self.old self.new }
        ensures told { IsReadAsTold self.old self.new result }
    {
        match self.next_call() {
            Call::Fail => {
                raise(&mut self.faults);
                return LinkRead::Failed;
            }
            Call::Idle => {
                raise(&mut self.read_agains);
                return LinkRead::Again;
            }
            Call::Work => {}
        }
        let most = next_most(&mut self.pieces);
        let count = give_most(&mut self.bytes, most, piece);
        if count == 0 {
            return LinkRead::End;
        }
        LinkRead::Got(count)
    }

    fn write(&mut self, piece: &[u8]) -> LinkWrite
        requires { 0 < length piece.now }
        ensures written { IsWritten (wire_of self.old) (wire_of self.new) piece.now result }
        ensures counts { WriteCounts (wire_of self.old) (wire_of self.new) result }
        ensures later { IsLater (wire_of self.old) (wire_of self.new) }
        ensures left { self.new.left ≡ self.old.left }
        ensures called { IsCalled self.old self.new }
        ensures told { IsWrittenAsTold self.old self.new piece.now result }
    {
        match self.next_call() {
            Call::Fail => {
                raise(&mut self.faults);
                return LinkWrite::Failed;
            }
            Call::Idle => {
                raise(&mut self.write_agains);
                return LinkWrite::Again;
            }
            Call::Work => {}
        }
        let count = store(&mut self.taken, self.room, piece);
        if count == 0 {
            raise(&mut self.faults);
            return LinkWrite::Failed;
        }
        LinkWrite::Took(count)
    }
}
