use sfc_routes::RouteChange;
use wire_base::{Bytes, List};

/// What happens to a session, at a moment in microseconds.
#[derive(Clone, Copy, Debug)]
pub enum Event<'a> {
    /// The connection is there.
    Connect(u64),
    /// These bytes of the peer came.
    Bytes(u64, &'a [u8]),
    /// The connection is gone.
    Close(u64),
}

/// What an event leads to: bytes for the peer, and changes of its routes.
#[derive(Debug, Drop)]
pub struct Effects {
    pub bytes: Bytes,
    pub changes: List<RouteChange>,
}
