//! A gate that holds two workers until both are at work.

use crate::waits::Waits;
use sfc_program::Gate;
use std::sync::atomic::{AtomicU64, Ordering};

/// Holds the first lookup of each of two workers until the other worker asks for its first one.
#[derive(Drop)]
pub(crate) struct BothWorkers {
    asked_by_0: AtomicU64,
    asked_by_1: AtomicU64,
    pub(crate) waits: Waits,
}

impl BothWorkers {
    pub(crate) fn new() -> BothWorkers {
        BothWorkers {
            asked_by_0: AtomicU64::new(0),
            asked_by_1: AtomicU64::new(0),
            waits: Waits::new(),
        }
    }

    /// A worker asks for a lookup, and for its first one waits for the other worker.
    fn meet(&self, own: &AtomicU64, other: &AtomicU64) {
        if own.fetch_add(1, Ordering::SeqCst) == 0 {
            self.waits.wait_for(other, 1);
        }
    }
}

impl Gate for BothWorkers {
    fn before_lookup(&self, worker: u32) {
        if worker == 0 {
            self.meet(&self.asked_by_0, &self.asked_by_1);
        } else {
            self.meet(&self.asked_by_1, &self.asked_by_0);
        }
    }

    fn after_publish(&self, _version: u64) {}
}
