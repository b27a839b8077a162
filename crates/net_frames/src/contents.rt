ghost use Rattle.std.specs.Prelude.{◌≡◌, length};
ghost use Rattle.wire_base.specs.declared.next_hops.NextHop.TheVariants.{Four, Sixteen};
ghost use Rattle.net_frames.specs.Contents.{fields_of, vlan_of, ether_of, source_of, destination_of, protocol_of, to_port_of, has_ports};
ghost use Rattle.net_frames.specs.Layouts.{StandsIn};

use crate::layouts::{
    Network, TCP, UDP, find_network, is_first_fragment, is_tagged, network_begins, word_if_captured,
};
use crate::words::word_at;
use wire_base::{Fixed, NextHop};

/// What a frame's captured bytes say. A field that is not captured is None.
#[derive(Clone, Copy, Debug, PartialEq, Eq)]
pub struct Fields {
    /// The VLAN of the first tag, 12 bits (IEEE 802.1Q).
    pub vlan: Option<u16>,
    /// The Ethernet type, behind up to two tags.
    pub ether: Option<u16>,
    /// The source address of IPv4 or IPv6.
    pub source: Option<NextHop>,
    /// The destination address of IPv4 or IPv6.
    pub destination: Option<NextHop>,
    /// IPv4's protocol or IPv6's next header.
    pub protocol: Option<u8>,
    /// The destination port of TCP or UDP.
    pub to_port: Option<u16>,
}

/// One end of a packet's way.
#[derive(Clone, Copy, Debug, PartialEq, Eq)]
pub enum Side {
    Source,
    Destination,
}

/// Reads all fields.
pub(crate) fn read_fields(bytes: &[u8]) -> Fields
    ensures { result ≡ fields_of bytes.now }
{
    let network = find_network(bytes);
    Fields {
        vlan: read_vlan(bytes),
        ether: read_ether(bytes),
        source: read_source(bytes, network),
        destination: read_destination(bytes, network),
        protocol: read_protocol(bytes, network),
        to_port: read_to_port(bytes, network),
    }
}

#[tactic(auto, unfolding(crate::specs::Contents::vlan_of))]
fn read_vlan(bytes: &[u8]) -> Option<u16>
    ensures { result ≡ vlan_of bytes.now }
{
    if is_tagged(bytes, 12) {
        Some(word_at(bytes, 14) % 4096)
    } else {
        None
    }
}

#[tactic(auto, unfolding(crate::specs::Contents::ether_of))]
fn read_ether(bytes: &[u8]) -> Option<u16>
    ensures { result ≡ ether_of bytes.now }
{
    word_if_captured(bytes, network_begins(bytes) - 2)
}

fn read_source(bytes: &[u8], network: Network) -> Option<NextHop>
    requires { StandsIn network (length bytes.now) }
    ensures { result ≡ source_of bytes.now network }
{
    match network {
        Network::Ipv4 { at, .. } => four_bytes(&bytes[at + 12..at + 16]),
        Network::Ipv6 { at, .. } => sixteen_bytes(&bytes[at + 8..at + 24]),
        Network::Other => None,
    }
}

fn read_destination(bytes: &[u8], network: Network) -> Option<NextHop>
    requires { StandsIn network (length bytes.now) }
    ensures { result ≡ destination_of bytes.now network }
{
    match network {
        Network::Ipv4 { at, .. } => four_bytes(&bytes[at + 16..at + 20]),
        Network::Ipv6 { at, .. } => sixteen_bytes(&bytes[at + 24..at + 40]),
        Network::Other => None,
    }
}

fn read_protocol(bytes: &[u8], network: Network) -> Option<u8>
    requires { StandsIn network (length bytes.now) }
    ensures { result ≡ protocol_of bytes.now network }
{
    match network {
        Network::Ipv4 { at, .. } => Some(bytes[at + 9]),
        Network::Ipv6 { at, .. } => Some(bytes[at + 6]),
        Network::Other => None,
    }
}

/// The destination port, the second word of the transport header.
fn read_to_port(bytes: &[u8], network: Network) -> Option<u16>
    requires { StandsIn network (length bytes.now) }
    ensures { result ≡ to_port_of bytes.now network }
{
    match network {
        Network::Ipv4 { at, transport } => {
            if is_first_fragment(bytes, at) && bears_ports(bytes[at + 9]) {
                word_if_captured(bytes, transport + 2)
            } else {
                None
            }
        }
        Network::Ipv6 { at, transport } => {
            if bears_ports(bytes[at + 6]) {
                word_if_captured(bytes, transport + 2)
            } else {
                None
            }
        }
        Network::Other => None,
    }
}

fn bears_ports(protocol: u8) -> bool
    ensures { result ≡ has_ports protocol }
{
    protocol == TCP || protocol == UDP
}

fn four_bytes(bytes: &[u8]) -> Option<NextHop>
    requires { length bytes.now ≡ 4 }
    ensures { result ≡ Some (Four bytes.now) }
{
    match Fixed::of(bytes) {
        Some(address) => Some(NextHop::Four(address)),
        None => None,
    }
}

fn sixteen_bytes(bytes: &[u8]) -> Option<NextHop>
    requires { length bytes.now ≡ 16 }
    ensures { result ≡ Some (Sixteen bytes.now) }
{
    match Fixed::of(bytes) {
        Some(address) => Some(NextHop::Sixteen(address)),
        None => None,
    }
}
