use wire_base::Bytes;

/// A frame of a pcapng file: when it was captured, how long it was on the wire, the number of its interface in its section,
/// whether that is an Ethernet, and the bytes that were kept of it.
///
/// `seconds` counts from 1970 on, `nanos` is below 1,000,000,000.
#[derive(Debug, Drop)]
pub struct NgFrame {
    pub seconds: u32,
    pub nanos: u32,
    pub original: u32,
    pub interface: u32,
    pub ethernet: bool,
    pub bytes: Bytes,
}

/// A frame whose bytes are lent: there are `captured` of them, and the first is the byte `from` of the block.
#[derive(Clone, Copy, Debug, PartialEq, Eq)]
pub struct NgHead {
    pub seconds: u32,
    pub nanos: u32,
    pub original: u32,
    pub interface: u32,
    pub ethernet: bool,
    pub from: u32,
    pub captured: u32,
}
