//! Words, and the lines and pieces that they stand in.
//!
//! A value is shown as std writes it, and then as its printer appends it.

use bgp_session::Local;
use std::alloc::Global;
use text_words::{
    Name, Pieces, TextLines, print_address, print_four_digits, print_number, print_octets,
    print_octets_or_dash, read_address, read_four_digits, read_number, read_octets,
    read_octets_or_dash,
};
use wire_base::{Bytes, NextHop, OutOfMemory};

/// Appends what a formatting made.
pub(crate) fn push_text(out: &mut Bytes, text: &str) -> Result<(), OutOfMemory> {
    out.push_all(text.as_bytes())
}

/// Appends the line that says that there is no value.
pub(crate) fn push_none(out: &mut Bytes) -> Result<(), OutOfMemory> {
    out.push_all(b"  none\n")
}

/// A word as a number in a range.
pub(crate) fn number_row(
    alloc: Global,
    out: &mut Bytes,
    word: &[u8],
    least: u64,
    most: u64,
) -> Result<(), OutOfMemory> {
    let Some(number) = read_number(word, least, most) else {
        return push_none(out);
    };
    let text = format!(in alloc; "  {number} ")?;
    push_text(out, text.as_str())?;
    print_number(out, number)?;
    out.push_all(b"\n")
}

/// A word as a name.
pub(crate) fn name_row(out: &mut Bytes, word: &[u8]) -> Result<(), OutOfMemory> {
    let Some(name) = Name::of(word) else {
        return push_none(out);
    };
    out.push_all(b"  ")?;
    push_text(out, name.as_str())?;
    out.push_all(b"\n")
}

/// A word as the digits of 8 bytes.
pub(crate) fn octets_row(alloc: Global, out: &mut Bytes, word: &[u8]) -> Result<(), OutOfMemory> {
    let Some(octets) = read_octets::<8>(word) else {
        return push_none(out);
    };
    let text = format!(in alloc; "  {:?} ", octets.bytes())?;
    push_text(out, text.as_str())?;
    print_octets(out, octets.bytes())?;
    out.push_all(b"\n")
}

/// A word as four digits.
pub(crate) fn four_row(alloc: Global, out: &mut Bytes, word: &[u8]) -> Result<(), OutOfMemory> {
    let Some(number) = read_four_digits(word) else {
        return push_none(out);
    };
    let text = format!(in alloc; "  {number} ")?;
    push_text(out, text.as_str())?;
    print_four_digits(out, number)?;
    out.push_all(b"\n")
}

/// A word as the digits of 1 to 4 bytes, or a dash.
pub(crate) fn dash_row(alloc: Global, out: &mut Bytes, word: &[u8]) -> Result<(), OutOfMemory> {
    let Some(octets) = read_octets_or_dash::<4>(word) else {
        return push_none(out);
    };
    let text = format!(in alloc; "  {:?} ", octets.as_slice())?;
    push_text(out, text.as_str())?;
    print_octets_or_dash(out, octets.as_slice())?;
    out.push_all(b"\n")
}

/// A word as the digits of 1 to 300 bytes, or a dash: how many they are.
pub(crate) fn run_row(alloc: Global, out: &mut Bytes, word: &[u8]) -> Result<(), OutOfMemory> {
    let Some(octets) = read_octets_or_dash::<300>(word) else {
        return push_none(out);
    };
    let text = format!(in alloc; "  {} ", octets.as_slice().len())?;
    push_text(out, text.as_str())?;
    print_octets_or_dash(out, octets.as_slice())?;
    out.push_all(b"\n")
}

/// The digits of the bytes of a text.
pub(crate) fn digits_row(out: &mut Bytes, text: &[u8]) -> Result<(), OutOfMemory> {
    out.push_all(b"  ")?;
    print_octets(out, text)?;
    out.push_all(b"\n")
}

/// The form of an address, and its bytes.
fn address_shown(alloc: Global, address: &NextHop) -> Result<String, OutOfMemory> {
    let text = match address {
        NextHop::Four(octets) => format!(in alloc; "  Four {:?} ", octets.bytes())?,
        NextHop::Sixteen(octets) => format!(in alloc; "  Sixteen {:?} ", octets.bytes())?,
    };
    Ok(text)
}

/// A word as an address.
pub(crate) fn address_row(alloc: Global, out: &mut Bytes, word: &[u8]) -> Result<(), OutOfMemory> {
    let Some(address) = read_address(word) else {
        return push_none(out);
    };
    let text = address_shown(alloc, &address)?;
    push_text(out, text.as_str())?;
    print_address(out, &address)?;
    out.push_all(b"\n")
}

/// The lines of a text, each between brackets on a line of its own.
pub(crate) fn lines_row(out: &mut Bytes, text: &[u8]) -> Result<(), OutOfMemory> {
    let mut lines = TextLines::of(text);
    'lines: while let Some(line) = lines.next() {
        out.push_all(b"  [")?;
        out.push_all(line)?;
        out.push_all(b"]\n")?;
    }
    out.push_all(b"  end\n")
}

/// The pieces of a line at its spaces, and behind each whether it is the last.
pub(crate) fn pieces_row(out: &mut Bytes, line: &[u8]) -> Result<(), OutOfMemory> {
    let mut pieces = Pieces::of(line, b' ');
    'pieces: while let Some(piece) = pieces.next() {
        out.push_all(b"  [")?;
        out.push_all(piece)?;
        out.push_all(if pieces.is_done() {
            b"] last\n"
        } else {
            b"] more\n"
        })?;
    }
    out.push_all(b"  end\n")
}

/// The local side of three numbers.
pub(crate) fn local_row(alloc: Global, out: &mut Bytes, numbers: &[u8]) -> Result<(), OutOfMemory> {
    let mut parts = Pieces::of(numbers, b'|');
    let Some(asn) = parts.next_number(0, 4_294_967_295) else {
        return push_none(out);
    };
    let Some(id) = parts.next_number(0, 4_294_967_295) else {
        return push_none(out);
    };
    let Some(hold) = parts.next_number(0, 65_535) else {
        return push_none(out);
    };
    let text = format!(in alloc; "  {:?}\n", Local::of(asn as u32, id as u32, hold as u16))?;
    push_text(out, text.as_str())
}
