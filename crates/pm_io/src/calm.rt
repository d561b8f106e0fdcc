//! A source and a sink in memory that never fail.

ghost use Rattle.std.specs.Prelude.{◌≡◌, ◌<◌, ◌-◌, [], min, length, Some, IfOk, IsOk};
ghost use Rattle.std.specs.Io.{ReadsAtMost, WritesAtMost};
ghost use Rattle.std.specs.Io.KnownBytes.{ReadConsumes, WriteAppends};
ghost use Rattle.pm_model.specs.Causes.{HasCause, HasWriteCause, ends_after};
ghost use Rattle.pm_io.specs.Devices.{faults_written};

use crate::counting::{count_end, count_none};
use crate::moving::{give, store};
use pm_model::{Failed, Memory, Sink, Source};
use std::alloc::Global;
use std::collections::VecDeque;
use std::marker::Model;

/// Bytes in memory. No read fails.
pub struct CalmSource {
    bytes: VecDeque<u8>,
    ends: u64,
}

impl Drop for CalmSource {
    fn drop(self) {
        let CalmSource { bytes: _, ends: _ } = self;
    }
}

impl Model for CalmSource {
    ghost use Rattle.pm_io.specs.Devices.{Supply};

    ghost Value = { Supply };

    ghost view = { λ s. record { left = s.bytes.items; ends = s.ends } };
}

impl CalmSource {
    /// A source of these bytes.
    pub fn new(alloc: Global, bytes: &[u8]) -> Result<CalmSource, Memory>
        ensures { IfOk result (λ s. s ≡ record { left = bytes.now; ends = 0 }) }
    {
        let held = Vec::from_slice(alloc, bytes)?;
        Ok(CalmSource {
            bytes: VecDeque::from(held),
            ends: 0,
        })
    }
}

impl Source for CalmSource {
    ghost use Rattle.std.specs.Prelude.{Some};

    ghost left = { λ s. Some s.left };

    ghost faults = { λ _. 0 };

    ghost ends = { λ s. s.ends };

    fn read(&mut self, piece: &mut [u8]) -> Result<usize, Failed>
        ensures bound { ReadsAtMost result piece.new }
        ensures bytes { ReadConsumes (Some self.old.left) (Some self.new.left) result piece.new }
        ensures cause { HasCause 0 0 result }
        ensures end { self.new.ends ≡ ends_after self.old.ends result }
        ensures ok { IsOk result }
    {
        let count = give(&mut self.bytes, piece);
        count_end(&mut self.ends, count);
        Ok(count)
    }
}

/// Takes bytes in memory, up to its room, and then none. No write fails, but one that takes none of
/// a piece that isn't empty counts as a fault.
pub struct CalmSink {
    taken: Vec<u8>,
    room: usize,
    faults: u64,
}

impl Drop for CalmSink {
    fn drop(self) {
        let CalmSink {
            taken: _,
            room: _,
            faults: _,
        } = self;
    }
}

impl Model for CalmSink {
    ghost use Rattle.std.specs.Prelude.{◌≤◌, vec_len, vec_capacity};
    ghost use Rattle.pm_io.specs.Devices.{Intake};

    ghost Value = { Intake };

    ghost view = { λ s. record { room = s.room; taken = s.taken.items; faults = s.faults } };

    ghost invariant = { λ s. (vec_len s.taken ≤ s.room) × (s.room ≤ vec_capacity s.taken) };
}

impl CalmSink {
    /// A sink with this room, which it takes now.
    pub fn new(alloc: Global, room: usize) -> Result<CalmSink, Memory>
        ensures { IfOk result (λ s. s ≡ record { room = room; taken = []; faults = 0 }) }
    {
        Ok(CalmSink {
            taken: Vec::with_capacity(alloc, room)?,
            room,
            faults: 0,
        })
    }

    /// The bytes that it took.
    pub fn taken(&self) -> &[u8]
        ensures { result.now ≡ self.now.taken }
    {
        &self.taken
    }
}

impl Sink for CalmSink {
    ghost use Rattle.std.specs.Prelude.{Some};

    ghost taken = { λ s. Some s.taken };

    ghost faults = { λ s. s.faults };

    fn write(&mut self, piece: &[u8]) -> Result<usize, Failed>
        ensures bound { WritesAtMost result piece.now }
        ensures bytes { WriteAppends (Some self.old.taken) (Some self.new.taken) result piece.now }
        ensures cause { HasWriteCause self.old.faults self.new.faults result piece.now }
        ensures ok { IsOk result }
        ensures room { self.new.room ≡ self.old.room }
        ensures count { IfOk result (λ n. n ≡ min (self.old.room - length self.old.taken) (length piece.now)) }
        ensures faults { self.new.faults ≡ faults_written self.old.faults result piece.now }
    {
        let count = store(&mut self.taken, self.room, piece);
        count_none(&mut self.faults, count, piece);
        Ok(count)
    }
}
