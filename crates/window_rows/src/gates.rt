//! Threads that wait for each other, for a number of turns.

use crate::faults::Fault;
use std::sync::atomic::{AtomicU64, Ordering};
use std::thread;

/// How often a thread looks whether another one is so far, before it gives up.
pub(crate) const TURNS: u64 = 2_000_000;

/// How far two threads are: how many lookups and how many publications were made.
#[derive(Drop)]
pub(crate) struct Gate {
    looks: AtomicU64,
    publications: AtomicU64,
}

impl Gate {
    pub fn new() -> Gate {
        Gate {
            looks: AtomicU64::new(0),
            publications: AtomicU64::new(0),
        }
    }

    /// One lookup more was made.
    pub fn note_look(&self) {
        self.looks.fetch_add(1, Ordering::SeqCst);
    }

    /// One publication more was made.
    pub fn note_publication(&self) {
        self.publications.fetch_add(1, Ordering::SeqCst);
    }

    /// Waits until so many lookups were made.
    pub fn wait_for_looks(&self, count: u64) -> Result<(), Fault> {
        wait_for(&self.looks, count)
    }

    /// Waits until so many publications were made.
    pub fn wait_for_publications(&self, count: u64) -> Result<(), Fault> {
        wait_for(&self.publications, count)
    }
}

fn wait_for(so_far: &AtomicU64, count: u64) -> Result<(), Fault> {
    for _ in 0..TURNS {
        if so_far.load(Ordering::SeqCst) >= count {
            return Ok(());
        }
        thread::yield_now();
    }
    Err(Fault::OutOfTurns)
}
