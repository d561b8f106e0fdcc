//! What an operator is told.

use std::time::{Clock, Duration, Instant};

// How many seconds go by at least before an operator is told again.
const QUIET: u64 = 60;

/// Whoever tells an operator what he may have to do something about.
pub trait Notices {
    /// So many connections were closed since this was last told, as no worker had a place for them.
    fn no_place(&mut self, closed: u64);

    /// The table of this name has come to nine tenths of its limit, or more. Each is told of once.
    fn nearly_full(&mut self, table: &str, limit: u64);
}

// How many connections were closed for want of a place since that was last told, and when it was.
#[derive(Clone, Copy)]
pub(crate) struct Closed {
    count: u64,
    told: Option<Instant>,
}

impl Closed {
    pub(crate) fn new() -> Closed {
        Closed {
            count: 0,
            told: None,
        }
    }

    // Another connection found no place. The first is told of at once, and from then on all that came within a minute by the
    // next one behind it.
    pub(crate) fn add<N: Notices, C: Clock>(&mut self, rt: &C, notices: &mut N) {
        self.count = self.count.saturating_add(1);
        if self.is_due(rt) {
            notices.no_place(self.count);
            self.count = 0;
        }
    }

    // Whether it is time to tell; if so, that is taken to have been told now.
    fn is_due<C: Clock>(&mut self, rt: &C) -> bool {
        let Ok(now) = Instant::now(rt) else {
            return false;
        };
        if let Some(told) = self.told {
            if now.saturating_duration_since(told) < Duration::from_secs(QUIET) {
                return false;
            }
        }
        self.told = Some(now);
        true
    }
}
