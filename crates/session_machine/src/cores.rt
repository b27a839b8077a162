use crate::states::State;
use bgp_update::Nlri;
use sfc_routes::RouteChange;
use wire_base::{Bytes, List};

/// A session in the course of an event.
#[derive(Debug, Drop)]
pub(crate) struct Core {
    pub(crate) state: State,
    /// What the peer has announced and not withdrawn, each once.
    pub(crate) nlris: List<Nlri>,
    /// What this event has sent so far.
    pub(crate) bytes: Bytes,
    /// The changes of routes that this event has made so far.
    pub(crate) changes: List<RouteChange>,
}
