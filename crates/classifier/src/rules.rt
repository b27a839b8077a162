use nsh_metadata::Context;
use wire_base::{NextHop, Spi};

/// A rule: the fields that it asks for, where None asks for nothing, and what it does.
#[derive(Debug, Drop)]
pub struct Rule {
    /// The VLAN identifier, 0 to 4,095.
    pub vlan: Option<u16>,
    /// The network that the source address is in.
    pub from: Option<Prefix>,
    /// The network that the destination address is in.
    pub to: Option<Prefix>,
    /// The IP protocol number.
    pub protocol: Option<u8>,
    /// The lowest and the highest destination port.
    pub ports: Option<(u16, u16)>,
    pub action: Action,
}

/// A network: the first `bits` bits of an address, at most 32 or 128. The bits behind them are kept, and
/// not compared.
#[derive(Clone, Copy, Debug, PartialEq, Eq)]
pub struct Prefix {
    pub address: NextHop,
    pub bits: u8,
}

/// What a rule does with a frame that has its fields.
#[derive(Debug, Drop)]
pub enum Action {
    /// Starts on a path: SPI, SI from 1 to 255, TTL from 1 to 63, and the context.
    Path(Spi, u8, u8, Context),
    /// Lets the frame out as it is.
    Bypass,
    /// Drops the frame.
    Refuse,
}
