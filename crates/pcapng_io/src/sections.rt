use wire_base::List;

/// The most interfaces that a section describes.
pub const MAX_INTERFACES: usize = 1_024;

/// What an interface description says of the frames of its interface.
#[derive(Clone, Copy, Debug, PartialEq, Eq)]
pub struct Interface {
    /// Whether the link type is 1, Ethernet.
    pub ethernet: bool,
    /// The most bytes that are captured of a frame, or 0 where no limit is told.
    pub snapshot: u32,
    /// What a tick of its times is: below 128 a power of ten, from 128 on a power of two.
    pub resolution: u8,
    /// The seconds that are added to its times, a signed number in 8 bytes.
    pub offset: u64,
}

/// A section as far as it was read: whether there is one, whether its numbers have their highest byte first, and the interfaces
/// that it describes, which are numbered from 0 on.
#[derive(Debug, Drop)]
pub struct Section {
    pub begun: bool,
    pub big: bool,
    pub interfaces: List<Interface>,
}
