use wire_base::Bytes;

/// The most captured bytes that a frame may have.
pub const MAX_CAPTURED: u32 = 262_144;

/// The greatest original length that a frame may have.
pub const MAX_ORIGINAL: u32 = 2_147_483_647;

/// A frame as it was captured: when, how long it was on the wire, and the bytes that were kept of it.
///
/// `seconds` counts from 1970 on; `fraction` has the unit of the file's form; both are as read, and a
/// fraction may pass a second.
#[derive(Debug, Drop)]
pub struct Captured {
    pub seconds: u32,
    pub fraction: u32,
    pub original: u32,
    pub bytes: Bytes,
}

/// The four numbers before a frame's bytes, of which there are `captured`.
#[derive(Clone, Copy, Debug, PartialEq, Eq)]
pub struct PacketHead {
    pub seconds: u32,
    pub fraction: u32,
    pub captured: u32,
    pub original: u32,
}
