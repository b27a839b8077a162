use thiserror::Error;

/// Why bytes are no capture: the first field that is refused, or a part that is missing.
///
/// Each is told with a place, the offset in the file of the first byte of the field; `Short` with the number of bytes given.
#[derive(Clone, Copy, Debug, PartialEq, Eq)]
pub enum CaptureReason {
    /// The first 4 bytes are the magic of none of the four forms. The place is 0.
    Magic,
    /// The version is not 2.4. The place is 4.
    Version,
    /// The link type is not 1, Ethernet. The place is 20.
    Link,
    /// The captured length of a packet is above 262,144.
    Length,
    /// The original length of a packet is below the captured one, or above 2,147,483,647.
    Original,
    /// A packet's fraction of a second carries its time past the seconds that a capture can tell. No capture is refused for this
    /// when it is read, only where it is written as a pcapng file. The place is the fraction.
    Time,
    /// The bytes end in the file header or in a packet.
    Short,
}

/// A reason, and the place in the file where it stands.
#[derive(Clone, Copy, Debug, PartialEq, Eq)]
pub struct Refusal {
    pub place: u64,
    pub reason: CaptureReason,
}

/// Why no frame is given.
#[derive(Clone, Copy, Debug, PartialEq, Eq, Error)]
pub enum CaptureFault {
    /// The bytes are no capture, at this place for this reason.
    #[error("the bytes are no capture")]
    Bad(u64, CaptureReason),
    #[error("no memory")]
    OutOfMemory,
}
