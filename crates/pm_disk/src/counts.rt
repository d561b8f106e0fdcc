//! Counts of failures, and which calls are to fail.

ghost use Rattle.std.specs.Prelude.{◌≡◌, ◌≤◌};
ghost use Rattle.pm_model.specs.Causes.{raised};

use pm_model::{Failed, Memory};
use std::alloc::Global;

/// One fault more.
pub(crate) fn failed(faults: &mut u64) -> Failed
    ensures more { faults.new ≡ raised faults.old }
    ensures later { faults.old ≤ faults.new }
{
    *faults = faults.saturating_add(1);
    Failed
}

/// Which calls fail, by their numbers from 1 on, and each one behind so many.
pub(crate) struct Schedule {
    failing: Vec<u64>,
    most: u32,
    calls: u64,
}

impl Drop for Schedule {
    fn drop(self) {
        let Schedule {
            failing: _,
            most: _,
            calls: _,
        } = self;
    }
}

impl Schedule {
    pub(crate) fn new(alloc: Global, failing: &[u64], most: u32) -> Result<Schedule, Memory> {
        Ok(Schedule {
            failing: Vec::from_slice(alloc, failing)?,
            most,
            calls: 0,
        })
    }

    /// How many calls are allowed.
    pub(crate) fn most(&self) -> u32 {
        self.most
    }

    /// Counts the call that now begins, and says whether so many are allowed.
    pub(crate) fn begin(&mut self) -> bool {
        self.calls = self.calls.saturating_add(1);
        self.calls <= self.most as u64
    }

    /// Whether that call is to fail.
    pub(crate) fn fails(&self) -> bool {
        self.failing.contains(&self.calls)
    }
}
