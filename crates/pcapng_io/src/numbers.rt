//! The numbers of a section in its order of bytes.

ghost use Rattle.std.specs.Prelude.{◌≡◌, ◌≤◌, ◌+◌, length};
ghost use Rattle.pcapng_io.specs.Numbers.{half_at as half_in, word_at as word_in, long_at as long_in};

use byteorder::{BigEndian, ByteOrder, LittleEndian};

/// The number in the 2 bytes from a place on.
#[tactic(auto, unfolding(crate::specs::Numbers::half_at))]
pub(crate) fn half_at(big: bool, at: usize, bytes: &[u8]) -> u16
    requires { at + 2 ≤ length bytes.now }
    ensures { result ≡ half_in big at bytes.now }
{
    if big {
        BigEndian::read_u16(&bytes[at..])
    } else {
        LittleEndian::read_u16(&bytes[at..])
    }
}

/// The number in the 4 bytes from a place on.
#[tactic(auto, unfolding(crate::specs::Numbers::word_at))]
pub(crate) fn word_at(big: bool, at: usize, bytes: &[u8]) -> u32
    requires { at + 4 ≤ length bytes.now }
    ensures { result ≡ word_in big at bytes.now }
{
    if big {
        BigEndian::read_u32(&bytes[at..])
    } else {
        LittleEndian::read_u32(&bytes[at..])
    }
}

/// The number in the 8 bytes from a place on.
pub(crate) fn long_at(big: bool, at: usize, bytes: &[u8]) -> u64
    requires { at + 8 ≤ length bytes.now }
    ensures { result ≡ long_in big at bytes.now }
{
    let first = u64::from(word_at(big, at, bytes));
    let second = u64::from(word_at(big, at + 4, bytes));
    if big {
        first * 4_294_967_296 + second
    } else {
        second * 4_294_967_296 + first
    }
}
