//! What the acceptor and the workers of a server know of each other.

use crate::filling::nearly_full;
use mio::Waker;
use pm_machine::Version;
use std::sync::atomic::{AtomicBool, AtomicU64, Ordering};

/// How many workers have begun, which tables a worker has seen nearly full, and whether the server is at its end. A change of
/// any wakes the acceptor.
pub struct Watch {
    begun: AtomicU64,
    full: AtomicU64,
    over: AtomicBool,
    waker: Waker,
}

impl Drop for Watch {
    fn drop(self) {
        let Watch {
            begun: _,
            full: _,
            over: _,
            waker: _,
        } = self;
    }
}

impl Watch {
    // No worker has begun yet.
    pub(crate) fn new(waker: Waker) -> Watch {
        Watch {
            begun: AtomicU64::new(0),
            full: AtomicU64::new(0),
            over: AtomicBool::new(false),
            waker,
        }
    }

    // Another worker has begun.
    pub(crate) fn begin(&self) {
        self.begun.fetch_add(1, Ordering::SeqCst);
        let _ = self.waker.wake();
    }

    // How many workers have begun.
    pub(crate) fn begun(&self) -> u64 {
        self.begun.load(Ordering::SeqCst)
    }

    // A worker has seen this version.
    pub(crate) fn saw<V: Version>(&self, version: &V) {
        let full = nearly_full(version);
        if full & !self.nearly_full() != 0 {
            self.full.fetch_or(full, Ordering::SeqCst);
            let _ = self.waker.wake();
        }
    }

    // The tables that some worker has seen nearly full.
    pub(crate) fn nearly_full(&self) -> u64 {
        self.full.load(Ordering::SeqCst)
    }

    // The server is at its end.
    pub(crate) fn end(&self) {
        self.over.store(true, Ordering::SeqCst);
        let _ = self.waker.wake();
    }

    pub(crate) fn is_over(&self) -> bool {
        self.over.load(Ordering::SeqCst)
    }
}
