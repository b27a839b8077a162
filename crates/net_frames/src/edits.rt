ghost use Rattle.std.specs.Prelude.{◌≡◌, ◌+◌, ◌-◌, ◌<◌, ◌≤◌, length, IsTrue, not, false, take, slice_range, ◌++◌};
ghost use Rattle.net_frames.specs.Layouts.{ChecksIn};
ghost use Rattle.net_frames.specs.Edits.{marked, address_in, adjust_address, rechecked, readdressed, expires, lowered, tag_of};

use crate::checksums::{adjusted, reword};
use crate::contents::Side;
use crate::layouts::{Checked, Network, find_checked, find_network};
use crate::words::{put_word, word_at};

/// Sets the DSCP of IPv4 or IPv6.
pub(crate) fn mark(bytes: &mut [u8], dscp: u8)
    requires { dscp < 64 }
    ensures { bytes.new ≡ marked bytes.old dscp }
{
    match find_network(bytes) {
        Network::Ipv4 { at, .. } => {
            let first = word_at(bytes, at);
            reword(
                bytes,
                at + 10,
                at,
                first / 256 * 256 + 4 * u16::from(dscp) + first % 4,
            );
        }
        Network::Ipv6 { at, .. } => {
            let first = word_at(bytes, at);
            put_word(
                bytes,
                at,
                first / 4096 * 4096 + 64 * u16::from(dscp) + first % 64,
            );
        }
        Network::Other => {}
    }
}

/// The two words of an IPv4 address.
#[derive(Clone, Copy, Debug, PartialEq, Eq)]
pub(crate) struct Address {
    pub(crate) high: u16,
    pub(crate) low: u16,
}

/// The address at `i`.
fn read_address(bytes: &[u8], i: usize) -> Address
    requires { i + 4 ≤ length bytes.now }
    ensures { result ≡ address_in bytes.now i }
{
    Address {
        high: word_at(bytes, i),
        low: word_at(bytes, i + 2),
    }
}

/// Replaces IPv4's address of one side.
pub(crate) fn readdress(bytes: &mut [u8], side: Side, to: &[u8])
    requires { length to.now ≡ 4 }
    ensures { bytes.new ≡ readdressed bytes.old side to.now }
{
    let Network::Ipv4 { at, transport } = find_network(bytes) else {
        return;
    };
    let checked = find_checked(bytes, at, transport);
    let place = match side {
        Side::Source => at + 12,
        Side::Destination => at + 16,
    };
    let before = read_address(bytes, place);
    let after = read_address(to, 0);
    reword(bytes, at + 10, place, after.high);
    reword(bytes, at + 10, place + 2, after.low);
    recheck(bytes, checked, before, after);
}

/// Adjusts the transport checksum for an address.
#[tactic(auto, unfolding(crate::specs::Edits::rechecked))]
fn recheck(bytes: &mut [u8], checked: Checked, before: Address, after: Address)
    requires { ChecksIn checked (length bytes.old) }
    ensures { bytes.new ≡ rechecked checked bytes.old before after }
{
    match checked {
        Checked::Tcp(place) => {
            let checksum = adjust_for(word_at(bytes, place), before, after);
            put_word(bytes, place, checksum);
        }
        Checked::Udp(place) => {
            let checksum = word_at(bytes, place);
            if checksum == 0 {
                return;
            }
            let next = adjust_for(checksum, before, after);
            put_word(bytes, place, if next == 0 { 0xffff } else { next });
        }
        Checked::Unchecked => {}
    }
}

fn adjust_for(checksum: u16, before: Address, after: Address) -> u16
    ensures { result ≡ adjust_address checksum before after }
{
    let first = adjusted(checksum, before.high, after.high);
    adjusted(first, before.low, after.low)
}

/// Lowers the hop limit of IPv4 or IPv6 by 1; false, and nothing changed, where it is 0 or 1.
#[tactic(auto, unfolding(crate::specs::Words::word))]
pub(crate) fn lower(bytes: &mut [u8]) -> bool
    ensures expired { result ≡ not (expires bytes.old) }
    ensures lowered { IsTrue result → bytes.new ≡ lowered bytes.old }
    ensures unchanged { result ≡ false → bytes.new ≡ bytes.old }
{
    match find_network(bytes) {
        Network::Ipv4 { at, .. } => {
            if bytes[at + 8] <= 1 {
                return false;
            }
            let hops = word_at(bytes, at + 8);
            reword(bytes, at + 10, at + 8, hops - 256);
        }
        Network::Ipv6 { at, .. } => {
            if bytes[at + 7] <= 1 {
                return false;
            }
            let hops = word_at(bytes, at + 6);
            put_word(bytes, at + 6, hops - 1);
        }
        Network::Other => {}
    }
    true
}

/// Moves the bytes from 12 on back by 4, over the last 4, and writes a tag before them.
pub(crate) fn insert_tag(bytes: &mut [u8], vid: u16)
    requires { 16 ≤ length bytes.old }
    ensures value { bytes.new ≡ take 12 bytes.old ++ (tag_of vid ++ slice_range bytes.old 12 (length bytes.old - 4)) }
    ensures len { length bytes.new ≡ length bytes.old }
{
    let end = bytes.len() - 4;
    bytes.copy_within(12..end, 16);
    bytes[12] = 0x81;
    bytes[13] = 0x00;
    put_word(bytes, 14, vid);
}
