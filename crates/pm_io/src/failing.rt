//! Which calls are to fail, and how many there were.

ghost use Rattle.std.specs.Prelude.{◌≡◌, ◌↔◌, IfOk, IsTrue, Contains};
ghost use Rattle.pm_model.specs.Causes.{raised};

use crate::counting::raise;
use pm_model::Memory;
use std::alloc::Global;
use std::marker::Model;

/// Which calls are to fail, by their numbers from 1 on. Contracts see these and the number of calls so far.
pub(crate) struct Schedule {
    failing: Vec<u64>,
    calls: u64,
}

impl Drop for Schedule {
    fn drop(self) {
        let Schedule {
            failing: _,
            calls: _,
        } = self;
    }
}

impl Model for Schedule {
    ghost use Rattle.pm_io.specs.Devices.{Failures};

    ghost Value = { Failures };

    ghost view = { λ s. record { failing = s.failing.items; calls = s.calls } };
}

impl Schedule {
    pub(crate) fn new(alloc: Global, failing: &[u64]) -> Result<Schedule, Memory>
        ensures { IfOk result (λ s. s ≡ record { failing = failing.now; calls = 0 }) }
    {
        Ok(Schedule {
            failing: Vec::from_slice(alloc, failing)?,
            calls: 0,
        })
    }

    // Counts one more call, and says whether it is to fail.
    pub(crate) fn next_fails(&mut self) -> bool
        ensures fails { IsTrue result ↔ Contains self.old.failing self.new.calls }
        ensures calls { self.new ≡ record self.old { calls = raised self.old.calls } }
    {
        raise(&mut self.calls);
        self.failing.contains(&self.calls)
    }

    // How many calls there were.
    pub(crate) fn calls(&self) -> u64
        ensures { result ≡ self.now.calls }
    {
        self.calls
    }
}
