use crate::routes::Nlri;
use wire_base::{Bytes, Fixed, List, NextHop};

/// A path attribute (RFC 4271, section 4.3).
#[derive(Debug, Drop)]
pub struct Attribute {
    /// 0x80 optional, 0x40 transitive, 0x20 partial, 0x10 a length of 2 bytes; the other four are kept.
    pub flags: u8,
    /// The attribute type code.
    pub kind: u8,
    pub body: Body,
}

/// The value of a path attribute.
#[derive(Debug, Drop)]
pub enum Body {
    /// Kind 14 of the service function family.
    Reach(MpReach),
    /// Kind 15 of the service function family.
    Unreach(MpUnreach),
    /// Kind 16, optional and transitive: extended communities (RFC 4360).
    Communities(List<Fixed<8>>),
    /// Every other value, unread.
    Raw(Bytes),
}

/// Reachable routes (RFC 4760, section 3).
#[derive(Debug, Drop)]
pub struct MpReach {
    pub next_hop: NextHop,
    /// The reserved byte, kept as it came.
    pub reserved: u8,
    pub nlri: List<Nlri>,
}

/// Routes that are withdrawn (RFC 4760, section 4).
#[derive(Debug, Drop)]
pub struct MpUnreach {
    pub nlri: List<Nlri>,
}
