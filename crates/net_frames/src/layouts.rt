ghost use Rattle.std.specs.Prelude.{◌≡◌, ◌+◌, ◌^◌, ◌<◌, ◌≤◌, length, IsTrue};
ghost use Rattle.net_frames.specs.Layouts.{is_tag, tags, network_at, header_length, is_ipv4, is_ipv6, network_of, StandsIn, is_first, captured_word, checked_of, ChecksIn};

use crate::words::word_at;

/// The network header of a frame, with where it and the transport header begin.
#[derive(Clone, Copy, Debug, PartialEq, Eq)]
pub enum Network {
    Ipv4 { at: usize, transport: usize },
    Ipv6 { at: usize, transport: usize },
    Other,
}

/// The transport checksum that covers IPv4's addresses, with where it stands.
#[derive(Clone, Copy, Debug, PartialEq, Eq)]
pub enum Checked {
    Tcp(usize),
    Udp(usize),
    Unchecked,
}

/// IEEE 802.1Q's customer tag and 802.1ad's service tag.
const CUSTOMER_TAG: u16 = 0x8100;

const SERVICE_TAG: u16 = 0x88a8;

const IPV4: u16 = 0x0800;

const IPV6: u16 = 0x86dd;

/// TCP and UDP, as IPv4's protocol and IPv6's next header number them.
pub(crate) const TCP: u8 = 6;

pub(crate) const UDP: u8 = 17;

/// Whether a tag stands at `i`.
#[tactic(auto, unfolding(crate::specs::Layouts::is_tag))]
pub(crate) fn is_tagged(bytes: &[u8], i: usize) -> bool
    requires { i ≤ 16 }
    ensures value { result ≡ is_tag bytes.now i }
    ensures captured { IsTrue result → i + 4 ≤ length bytes.now }
{
    if bytes.len() < i + 4 {
        return false;
    }
    let kind = word_at(bytes, i);
    kind == CUSTOMER_TAG || kind == SERVICE_TAG
}

/// Where the network header begins, behind the tags and the Ethernet type.
#[tactic(auto, unfolding(crate::specs::Layouts::network_at, crate::specs::Layouts::tags))]
pub(crate) fn network_begins(bytes: &[u8]) -> usize
    ensures value { result ≡ network_at bytes.now }
    ensures low { 14 ≤ result }
    ensures high { result ≤ 22 }
{
    if !is_tagged(bytes, 12) {
        14
    } else if !is_tagged(bytes, 16) {
        18
    } else {
        22
    }
}

/// The word at `i`, where both its bytes are captured.
#[tactic(auto, unfolding(crate::specs::Layouts::captured_word))]
pub(crate) fn word_if_captured(bytes: &[u8], i: usize) -> Option<u16>
    requires { i + 2 < 2 ^ 64 }
    ensures { result ≡ captured_word bytes.now i }
{
    if i + 2 <= bytes.len() {
        Some(word_at(bytes, i))
    } else {
        None
    }
}

/// Finds the network header, and where the transport header begins.
#[tactic(auto, unfolding(crate::specs::Layouts::network_of, crate::specs::Layouts::is_ipv4, crate::specs::Layouts::is_ipv6, crate::specs::Layouts::header_length))]
pub(crate) fn find_network(bytes: &[u8]) -> Network
    ensures value { result ≡ network_of bytes.now }
    ensures stands { StandsIn result (length bytes.now) }
{
    let at = network_begins(bytes);
    if bytes.len() <= at {
        return Network::Other;
    }
    let kind = word_at(bytes, at - 2);
    let version = bytes[at] / 16;
    if kind == IPV4 && version == 4 {
        let length = 4 * usize::from(bytes[at] % 16);
        if length >= 20 && at + length <= bytes.len() {
            return Network::Ipv4 {
                at,
                transport: at + length,
            };
        }
    }
    if kind == IPV6 && version == 6 && at + 40 <= bytes.len() {
        return Network::Ipv6 {
            at,
            transport: at + 40,
        };
    }
    Network::Other
}

/// Whether the IPv4 packet is whole or the first of its fragments.
#[tactic(auto, unfolding(crate::specs::Layouts::is_first))]
pub(crate) fn is_first_fragment(bytes: &[u8], at: usize) -> bool
    requires { at + 20 ≤ length bytes.now }
    ensures { result ≡ is_first bytes.now at }
{
    word_at(bytes, at + 6) % 8192 == 0
}

/// Finds the transport checksum that covers IPv4's addresses.
#[tactic(auto, unfolding(crate::specs::Layouts::checked_of))]
pub(crate) fn find_checked(bytes: &[u8], at: usize, transport: usize) -> Checked
    requires header { at + 20 ≤ transport }
    requires captured { transport ≤ length bytes.now }
    ensures value { result ≡ checked_of bytes.now at transport }
    ensures stands { ChecksIn result (length bytes.now) }
{
    if !is_first_fragment(bytes, at) {
        return Checked::Unchecked;
    }
    let protocol = bytes[at + 9];
    if protocol == TCP && transport + 18 <= bytes.len() {
        return Checked::Tcp(transport + 16);
    }
    if protocol == UDP && transport + 8 <= bytes.len() {
        return Checked::Udp(transport + 6);
    }
    Checked::Unchecked
}
