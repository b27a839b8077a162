//! Addresses: four numbers joined by points, or 32 hexadecimal digits.

ghost use Rattle.std.specs.Prelude.{◌≡◌, ◌<◌, ◌^◌, ◌++◌, OnOk, OnErr};
ghost use Rattle.std.specs.Fmt.{decimal};
ghost use Rattle.text_words.specs.Reading.{Reads, ReadsFirst};
ghost use Rattle.text_words.specs.Hexadecimal.{IsOctets};
ghost use Rattle.text_words.specs.Addresses.{dotted, address_text, IsAddress};
ghost use Rattle.text_words.specs.Printing.{AppendsFront};

use crate::hexadecimals::{octets_are_bytes, print_octets, read_octets};
use crate::number_text::print_number;
use crate::piece_cursor::Pieces;
use wire_base::{Bytes, Fixed, NextHop, OutOfMemory};

/// Takes the first piece as a number from 0 to 255.
fn next_octet(parts: &mut Pieces) -> Option<u8>
    ensures { ReadsFirst (λ n. n < 2 ^ 8) decimal parts.old result parts.new }
{
    let Some(number) = parts.next_number(0, 255) else {
        return None;
    };
    Some(number as u8)
}

/// Reads four numbers from 0 to 255 joined by points.
pub fn read_dotted(word: &[u8]) -> Option<Fixed<4>>
    ensures { Reads (IsOctets 4) dotted word.now result }
{
    let mut parts = Pieces::of(word, b'.');
    let Some(first) = next_octet(&mut parts) else {
        return None;
    };
    let Some(second) = next_octet(&mut parts) else {
        return None;
    };
    let Some(third) = next_octet(&mut parts) else {
        return None;
    };
    let Some(last) = next_octet(&mut parts) else {
        return None;
    };
    if !parts.is_done() {
        return None;
    }
    Fixed::of(&[first, second, third, last])
}

/// Reads an address in one of its two forms.
pub fn read_address(word: &[u8]) -> Option<NextHop>
    ensures { Reads IsAddress address_text word.now result }
{
    if let Some(octets) = read_dotted(word) {
        return Some(NextHop::Four(octets));
    }
    match read_octets::<16>(word) {
        Some(octets) => Some(NextHop::Sixteen(octets)),
        None => None,
    }
}

/// Appends four numbers joined by points.
pub fn print_dotted(out: &mut Bytes, octets: &Fixed<4>) -> Result<(), OutOfMemory>
    ensures ok { OnOk result (out.new ≡ out.old ++ dotted octets.now) }
    ensures err { OnErr result (AppendsFront out.old (dotted octets.now) out.new) }
{
    let octets = octets.bytes();
    print_number(out, u64::from(octets[0]))?;
    out.push_all(b".")?;
    print_number(out, u64::from(octets[1]))?;
    out.push_all(b".")?;
    print_number(out, u64::from(octets[2]))?;
    out.push_all(b".")?;
    print_number(out, u64::from(octets[3]))?;
    Ok(())
}

/// Appends an address.
pub fn print_address(out: &mut Bytes, address: &NextHop) -> Result<(), OutOfMemory>
    ensures ok { OnOk result (out.new ≡ out.old ++ address_text address.now) }
    ensures err { OnErr result (AppendsFront out.old (address_text address.now) out.new) }
{
    match address {
        NextHop::Four(octets) => print_dotted(out, octets),
        NextHop::Sixteen(octets) => print_octets(out, octets.bytes()),
    }
}

/// An address has the bytes of its form, which is all that this says.
pub fn address_has_bytes(address: &NextHop)
    ensures { IsAddress address.now }
{
    match address {
        NextHop::Four(octets) => octets_are_bytes(octets),
        NextHop::Sixteen(octets) => octets_are_bytes(octets),
    }
}
