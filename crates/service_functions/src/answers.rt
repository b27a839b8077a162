/// Why a function drops a frame.
#[derive(Clone, Copy, Debug, PartialEq, Eq)]
pub enum Why {
    /// A firewall denies its protocol and port.
    Denied,
    /// The TTL or the hop limit is 0 or 1.
    HopLimit,
    /// An item is asked for or added where the context has none or takes none.
    Meta,
    /// The items would pass 244 bytes.
    MetaFull,
    /// The frame would pass its room, or 262,144 captured bytes.
    TooLong,
}

/// What a function answers to a frame.
#[derive(Clone, Copy, Debug, PartialEq, Eq)]
pub enum Served {
    Passed,
    Dropped(Why),
}
