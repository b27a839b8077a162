//! The fields of the first 8 bytes.

use wire_base::Spi;

/// The base header (RFC 8300, section 2.2). A decoded one has version 0.
#[derive(Clone, Copy, Debug, PartialEq, Eq)]
pub struct Base {
    /// The O bit: an OAM packet.
    pub oam: bool,
    /// The unassigned bit after O.
    pub spare1: bool,
    /// The time to live, 0 to 63.
    pub ttl: u8,
    /// Length: the whole header in words of 4 bytes, 0 to 63.
    pub words: u8,
    /// The 4 unassigned bits before the MD Type, 0 to 15.
    pub spare4: u8,
    /// The MD Type, 0 to 15. A decoded one is 1 or 2.
    pub md: u8,
    /// The Next Protocol, such as 3 for Ethernet.
    pub next: u8,
}

/// The service path header (RFC 8300, section 2.3).
#[derive(Clone, Copy, Debug, PartialEq, Eq)]
pub struct ServicePath {
    /// The service path identifier (SPI).
    pub spi: Spi,
    /// The service index (SI).
    pub si: u8,
}

/// The first 8 bytes of a header.
#[derive(Clone, Copy, Debug, PartialEq, Eq)]
pub struct NshHead {
    pub base: Base,
    pub path: ServicePath,
}
