use sfc_routes::Rd;
use wire_base::{ForwarderId, InstanceId};

/// What counts of a usable instance route (RFC 9015, section 3.1).
#[derive(Drop)]
pub(crate) struct Candidate {
    /// The service function type.
    pub(crate) kind: u16,
    pub(crate) rd: Rd,
    /// The peer that announced it.
    pub(crate) peer: u16,
    /// The forwarder at its next hop.
    pub(crate) forwarder: ForwarderId,
    /// The instance of its RD and type.
    pub(crate) instance: InstanceId,
}
