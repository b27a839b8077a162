use wire_base::{ForwarderId, InstanceId};

/// What a table says of a service path identifier and a service index. The number is the service index of the hop
/// that serves, not the one that was asked for.
#[derive(Clone, Copy, Debug, PartialEq, Eq)]
pub enum Answer {
    /// No path has the identifier.
    NoPath,
    /// The path has no hop for this index or a smaller one.
    Ended,
    /// The hop of this index serves, and has no instance.
    NoInstance(u8),
    /// The hop of this index serves, at this forwarder by this instance.
    At(u8, ForwarderId, InstanceId),
}
