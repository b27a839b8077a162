use wire_base::{ForwarderId, InstanceId};

/// One hop of a path: the service index (SI) from which on it serves, and the forwarder and the instance that
/// serve there, or None where there is no instance.
#[derive(Clone, Copy, Debug, PartialEq, Eq)]
pub struct HopRow {
    pub si: u8,
    pub choice: Option<(ForwarderId, InstanceId)>,
}
