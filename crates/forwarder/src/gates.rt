/// What is told of lookups and publications, and may hold the caller for a limited time, for tests.
pub trait Gate: Sync {
    /// This worker makes a lookup next.
    fn before_lookup(&self, worker: u32);

    /// This version was published.
    fn after_publish(&self, version: u64);
}

/// A gate that does nothing.
#[derive(Clone, Copy, Debug)]
pub struct OpenGate;

impl Gate for OpenGate {
    fn before_lookup(&self, _worker: u32) {}

    fn after_publish(&self, _version: u64) {}
}
