//! A source and a sink in memory, of which chosen calls fail.

ghost use Rattle.std.specs.Prelude.{◌≡◌, ◌<◌, ◌-◌, ◌↔◌, [], min, length, Some, IfOk, IsErr, Contains};
ghost use Rattle.std.specs.Io.{ReadsAtMost, WritesAtMost};
ghost use Rattle.std.specs.Io.KnownBytes.{ReadConsumes, WriteAppends};
ghost use Rattle.pm_model.specs.Causes.{HasCause, HasWriteCause, raised, ends_after};
ghost use Rattle.pm_io.specs.Devices.{faults_read, faults_written};

use crate::counting::{count_end, count_none, raise};
use crate::failing::Schedule;
use crate::moving::{give, store};
use pm_model::{Failed, Memory, Sink, Source};
use std::alloc::Global;
use std::collections::VecDeque;
use std::marker::Model;

/// Bytes in memory. The read calls whose numbers it was given fail, and no others.
pub struct MemSource {
    bytes: VecDeque<u8>,
    schedule: Schedule,
    faults: u64,
    ends: u64,
}

impl Drop for MemSource {
    fn drop(self) {
        let MemSource {
            bytes: _,
            schedule: _,
            faults: _,
            ends: _,
        } = self;
    }
}

impl Model for MemSource {
    ghost use Rattle.pm_io.specs.Devices.{FailingSupply};

    ghost Value = { FailingSupply };

    ghost view = { λ s. record { left = s.bytes.items; failures = s.schedule; faults = s.faults; ends = s.ends } };
}

impl MemSource {
    /// A source of these bytes, whose read calls of these numbers, from 1 on, are to fail.
    pub fn new(alloc: Global, bytes: &[u8], failing: &[u64]) -> Result<MemSource, Memory>
        ensures { IfOk result (λ s. s ≡ record { left = bytes.now; failures = record { failing = failing.now; calls = 0 }; faults = 0; ends = 0 }) }
    {
        let held = Vec::from_slice(alloc, bytes)?;
        Ok(MemSource {
            bytes: VecDeque::from(held),
            schedule: Schedule::new(alloc, failing)?,
            faults: 0,
            ends: 0,
        })
    }
}

impl Source for MemSource {
    ghost use Rattle.std.specs.Prelude.{Some};

    ghost left = { λ s. Some s.left };

    ghost faults = { λ s. s.faults };

    ghost ends = { λ s. s.ends };

    fn read(&mut self, piece: &mut [u8]) -> Result<usize, Failed>
        ensures bound { ReadsAtMost result piece.new }
        ensures bytes { ReadConsumes (Some self.old.left) (Some self.new.left) result piece.new }
        ensures cause { HasCause self.old.faults self.new.faults result }
        ensures end { self.new.ends ≡ ends_after self.old.ends result }
        ensures listed { IsErr result ↔ Contains self.old.failures.failing self.new.failures.calls }
        ensures calls { self.new.failures ≡ record self.old.failures { calls = raised self.old.failures.calls } }
        ensures faults { self.new.faults ≡ faults_read self.old.faults result }
    {
        if self.schedule.next_fails() {
            raise(&mut self.faults);
            return Err(Failed);
        }
        let count = give(&mut self.bytes, piece);
        count_end(&mut self.ends, count);
        Ok(count)
    }
}

/// Takes bytes in memory, up to its room, and then none. The write calls whose numbers it was given
/// fail, and no others.
pub struct MemSink {
    taken: Vec<u8>,
    room: usize,
    schedule: Schedule,
    faults: u64,
}

impl Drop for MemSink {
    fn drop(self) {
        let MemSink {
            taken: _,
            room: _,
            schedule: _,
            faults: _,
        } = self;
    }
}

impl Model for MemSink {
    ghost use Rattle.std.specs.Prelude.{◌≤◌, vec_len, vec_capacity};
    ghost use Rattle.pm_io.specs.Devices.{FailingIntake};

    ghost Value = { FailingIntake };

    ghost view = { λ s. record { room = s.room; taken = s.taken.items; failures = s.schedule; faults = s.faults } };

    ghost invariant = { λ s. (vec_len s.taken ≤ s.room) × (s.room ≤ vec_capacity s.taken) };
}

impl MemSink {
    /// A sink with this room, which it takes now, whose write calls of these numbers, from 1 on, are
    /// to fail.
    pub fn new(alloc: Global, room: usize, failing: &[u64]) -> Result<MemSink, Memory>
        ensures { IfOk result (λ s. s ≡ record { room = room; taken = []; failures = record { failing = failing.now; calls = 0 }; faults = 0 }) }
    {
        Ok(MemSink {
            taken: Vec::with_capacity(alloc, room)?,
            room,
            schedule: Schedule::new(alloc, failing)?,
            faults: 0,
        })
    }

    /// The bytes that it took.
    pub fn taken(&self) -> &[u8]
        ensures { result.now ≡ self.now.taken }
    {
        &self.taken
    }
}

impl Sink for MemSink {
    ghost use Rattle.std.specs.Prelude.{Some};

    ghost taken = { λ s. Some s.taken };

    ghost faults = { λ s. s.faults };

    fn write(&mut self, piece: &[u8]) -> Result<usize, Failed>
        ensures bound { WritesAtMost result piece.now }
        ensures bytes { WriteAppends (Some self.old.taken) (Some self.new.taken) result piece.now }
        ensures cause { HasWriteCause self.old.faults self.new.faults result piece.now }
        ensures room { self.new.room ≡ self.old.room }
        ensures count { IfOk result (λ n. n ≡ min (self.old.room - length self.old.taken) (length piece.now)) }
        ensures listed { IsErr result ↔ Contains self.old.failures.failing self.new.failures.calls }
        ensures calls { self.new.failures ≡ record self.old.failures { calls = raised self.old.failures.calls } }
        ensures faults { self.new.faults ≡ faults_written self.old.faults result piece.now }
    {
        if self.schedule.next_fails() {
            raise(&mut self.faults);
            return Err(Failed);
        }
        let count = store(&mut self.taken, self.room, piece);
        count_none(&mut self.faults, count, piece);
        Ok(count)
    }
}
