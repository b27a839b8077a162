use wire_base::Bytes;

/// The kind of a segment that says that a peer's connection is there.
pub const CONNECT: u8 = 1;

/// The kind of a segment with bytes of a peer.
pub const BYTES: u8 = 2;

/// The kind of a segment that says that a peer's connection is gone.
pub const CLOSE: u8 = 3;

/// The most bytes that a segment may have.
pub const MAX_SEGMENT: u32 = 65_535;

/// What a peer did: its connection came, it sent bytes, or its connection went.
///
/// `kind` is 1 (`CONNECT`), 2 (`BYTES`) or 3 (`CLOSE`); `moment` counts microseconds; `position` is the number of frames that
/// come before it. There are bytes in kind 2 alone, at most 65,535.
#[derive(Debug, Drop)]
pub struct Segment {
    pub kind: u8,
    pub peer: u16,
    pub moment: u64,
    pub position: u64,
    pub bytes: Bytes,
}

/// The five numbers before a segment's bytes, of which there are `length`.
#[derive(Clone, Copy, Debug, PartialEq, Eq)]
pub struct SegmentHead {
    pub kind: u8,
    pub peer: u16,
    pub moment: u64,
    pub position: u64,
    pub length: u32,
}

/// The moment and the position of a segment, below which those behind it may not fall.
#[derive(Clone, Copy, Debug, PartialEq, Eq)]
pub struct Mark {
    pub moment: u64,
    pub position: u64,
}
