//! A gate that holds a worker between two lookups.

use crate::waits::Waits;
use sfc_program::Gate;
use std::sync::atomic::{AtomicU64, Ordering};

/// Holds a lookup until a version was published, and the next lookup until the next version was. Between both versions the
/// publisher is held until that next lookup is asked for.
#[derive(Drop)]
pub(crate) struct HeldLookup {
    lookup: u64,
    version: u64,
    asked: AtomicU64,
    published: AtomicU64,
    pub(crate) waits: Waits,
}

impl HeldLookup {
    /// The gate for the lookup of this number, counted from 1, and this version.
    pub(crate) fn new(lookup: u64, version: u64) -> HeldLookup {
        HeldLookup {
            lookup,
            version,
            asked: AtomicU64::new(0),
            published: AtomicU64::new(0),
            waits: Waits::new(),
        }
    }

    /// Waits until this version was published.
    fn wait_for_version(&self, version: u64) {
        self.waits.wait_for(&self.published, version);
    }

    /// Waits until so many lookups were asked for.
    fn wait_for_lookup(&self, lookup: u64) {
        self.waits.wait_for(&self.asked, lookup);
    }
}

impl Gate for HeldLookup {
    fn before_lookup(&self, _worker: u32) {
        let before = self.asked.fetch_add(1, Ordering::SeqCst);
        if before.saturating_add(1) == self.lookup {
            self.wait_for_version(self.version);
        }
        if before == self.lookup {
            self.wait_for_version(self.version.saturating_add(1));
        }
    }

    fn after_publish(&self, version: u64) {
        self.published.store(version, Ordering::SeqCst);
        if version == self.version {
            self.wait_for_lookup(self.lookup.saturating_add(1));
        }
    }
}
