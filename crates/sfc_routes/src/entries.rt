use text_words::Name;
use wire_base::{Fixed, NextHop};

/// A route distinguisher (RFC 4364, section 4.2). RDs are ordered by their bytes.
pub type Rd = Fixed<8>;

/// A forwarder of a roster.
#[derive(Debug, Drop)]
pub struct ForwarderEntry {
    pub name: Name,
    pub address: NextHop,
}

/// An instance of a roster.
#[derive(Debug, Drop)]
pub struct InstanceEntry {
    pub name: Name,
    pub rd: Rd,
    /// The type of the service function (RFC 9015, section 3.1).
    pub kind: u16,
}
