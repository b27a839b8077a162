//! The IPv4 headers of generated frames (RFC 791, section 3.1).

ghost use Rattle.std.specs.Prelude.{◌≡◌, ◌<◌, ◌≤◌, ◌++◌, length, sum, OnOk};
ghost use Rattle.std.specs.List.{flat_map};
ghost use Rattle.wire_base.specs.Numbers.{two};
ghost use Rattle.generated_inputs.specs.Frames.{header_words, header_bytes, checksum_over};

use wire_base::{Bytes, OutOfMemory};

/// The words of a header of a packet of this size, with this identification, last byte of the target's address and checksum.
fn header_words(size: u16, identification: u16, last: u8, checksum: u16) -> [u16; 10]
    ensures { result ≡ header_words size identification last checksum }
{
    [
        0x4500,
        size,
        identification,
        0x4000,
        0x4006,
        checksum,
        0x0A01,
        0x0005,
        0xC633,
        0x6400 + u16::from(last),
    ]
}

/// The sum of some words.
fn sum_of(words: &[u16]) -> u32
    requires { length words.now ≤ 65536 }
    ensures { result ≡ sum words.now }
{
    let mut total = 0;
    for word in words {
        total += u32::from(*word);
    }
    total
}

/// The checksum over words among which its own is 0 (RFC 1071, section 1).
fn checksum_over(words: &[u16]) -> u16
    requires few { length words.now ≤ 65536 }
    requires some { 0 < sum words.now }
    ensures { result ≡ checksum_over words.now }
{
    0xffff - ((sum_of(words) - 1) % 0xffff + 1) as u16
}

/// Appends words, each as 2 bytes.
fn push_words(bytes: &mut Bytes, words: &[u16]) -> Result<(), OutOfMemory>
    ensures { OnOk result (bytes.new ≡ bytes.old ++ flat_map two words.now) }
{
    for word in words {
        bytes.push_u16(*word)?;
    }
    Ok(())
}

/// Appends a header with its right checksum.
pub(crate) fn push_header(
    bytes: &mut Bytes,
    size: u16,
    identification: u16,
    last: u8,
) -> Result<(), OutOfMemory>
    ensures { OnOk result (bytes.new ≡ bytes.old ++ header_bytes size identification last) }
{
    let checksum = checksum_over(&header_words(size, identification, last, 0));
    push_words(bytes, &header_words(size, identification, last, checksum))
}
