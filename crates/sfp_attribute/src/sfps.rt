use wire_base::{Bytes, Fixed, List, Spi};

/// The value of an SFP attribute: parts, one after another (after RFC 9015, section 3.2).
#[derive(Debug, Drop)]
pub struct Sfp {
    pub parts: List<Part>,
}

/// A part of an SFP attribute.
#[derive(Debug, Drop)]
pub enum Part {
    /// Kind 1: an association of this type with the path of an RD and an SPI.
    Association { kind: u8, rd: Fixed<8>, spi: Spi },
    /// Kind 2: a hop, by its service index (SI), 1 to 255, which falls from hop to hop.
    Hop { si: u8, parts: List<HopPart> },
    /// Kinds 6 to 255, kept unread.
    Other { kind: u8, body: Bytes },
}

/// A part of a hop.
#[derive(Debug, Drop)]
pub enum HopPart {
    /// Kind 3: a service function type, at least 32, and the RDs that may serve it.
    Sft { kind: u16, rds: List<Fixed<8>> },
    /// Kinds 6 to 255, kept unread.
    Other { kind: u8, body: Bytes },
}
