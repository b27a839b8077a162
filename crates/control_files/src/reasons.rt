use thiserror::Error;

/// Why bytes are no control file: the first field that is refused, or a part that is missing.
///
/// Each is told with a place, the offset in the file of the first byte of the field; `Short` with the number of bytes given.
/// A field is refused as soon as it is whole.
#[derive(Clone, Copy, Debug, PartialEq, Eq)]
pub enum ControlReason {
    /// The kind is not 1, 2 or 3.
    Kind,
    /// No peer has the number.
    Peer,
    /// The moment is below that of the segment before.
    Moment,
    /// The position is below that of the segment before.
    Position,
    /// The length is above 65,535, or not 0 in a segment of kind 1 or 3.
    Length,
    /// The bytes end in a segment.
    Short,
}

/// A reason, and the place in the file where it stands.
#[derive(Clone, Copy, Debug, PartialEq, Eq)]
pub struct Refusal {
    pub place: u64,
    pub reason: ControlReason,
}

/// Why no segment is given.
#[derive(Clone, Copy, Debug, PartialEq, Eq, Error)]
pub enum ControlFault {
    /// The bytes are no control file, at this place for this reason.
    #[error("the bytes are no control file")]
    Bad(u64, ControlReason),
    #[error("no memory")]
    OutOfMemory,
}
