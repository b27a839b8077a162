//! Threads that wait for each other, for a number of turns.

use std::sync::atomic::{AtomicU64, Ordering};
use std::thread;

/// How often a thread looks whether another one is so far, before it goes on all the same.
const TURNS: u64 = 2_000_000;

/// How many waits of a run ran out of turns.
#[derive(Drop)]
pub(crate) struct Waits {
    in_vain: AtomicU64,
}

impl Waits {
    pub(crate) fn new() -> Waits {
        Waits {
            in_vain: AtomicU64::new(0),
        }
    }

    /// Whether each wait met what it waited for.
    pub(crate) fn were_met(&self) -> bool {
        self.in_vain.load(Ordering::SeqCst) == 0
    }

    /// Waits until the count is so high. Once a wait ran out of turns, there are no more.
    pub(crate) fn wait_for(&self, count: &AtomicU64, least: u64) {
        for _ in 0..TURNS {
            if count.load(Ordering::SeqCst) >= least || !self.were_met() {
                return;
            }
            thread::yield_now();
        }
        self.in_vain.fetch_add(1, Ordering::SeqCst);
    }
}
