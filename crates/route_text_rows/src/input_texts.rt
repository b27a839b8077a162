//! The bytes that a row's input stands for.

use std::alloc::Global;
use text_words::{Pieces, print_four_digits};
use wire_base::{Bytes, OutOfMemory};

/// Appends what stands behind a backslash, with the byte that its mark stands for.
fn push_marked(out: &mut Bytes, part: &[u8]) -> Result<(), OutOfMemory> {
    match part {
        [b'n', rest @ ..] => {
            out.push_all(b"\n")?;
            out.push_all(rest)?;
        }
        _ => {}
    }
    Ok(())
}

/// The bytes of an input. A backslash with no mark behind it, and what follows it up to the next one, is left out.
pub(crate) fn bytes_of(alloc: Global, input: &str) -> Result<Bytes, OutOfMemory> {
    let mut out = Bytes::new(alloc);
    for (i, part) in input.as_bytes().split(|byte| *byte == b'\\').enumerate() {
        if i == 0 {
            out.push_all(part)?;
        } else {
            push_marked(&mut out, part)?;
        }
    }
    Ok(out)
}

/// Appends a piece, with its number in place of its mark.
fn push_numbered(out: &mut Bytes, piece: &[u8], number: u16) -> Result<(), OutOfMemory> {
    for (i, part) in piece.split(|byte| *byte == b'{').enumerate() {
        if i == 0 {
            out.push_all(part)?;
            continue;
        }
        match part {
            [b'h', b'}', rest @ ..] => {
                print_four_digits(out, number)?;
                out.push_all(rest)?;
            }
            _ => {}
        }
    }
    Ok(())
}

/// The next part of an input; nothing where there is none.
fn next_part<'a>(parts: &mut Pieces<'a>) -> &'a [u8] {
    match parts.next() {
        Some(part) => part,
        None => b"",
    }
}

/// A front, so many pieces, and what stands behind them.
pub(crate) fn many(alloc: Global, input: &str) -> Result<Bytes, OutOfMemory> {
    let input = bytes_of(alloc, input)?;
    let mut parts = Pieces::of(input.as_slice(), b'|');
    let count = match parts.next_number(0, 65_535) {
        Some(number) => number as u16,
        None => 0,
    };
    let mut out = Bytes::copy_of(alloc, next_part(&mut parts))?;
    let piece = next_part(&mut parts);
    for number in 0..count {
        push_numbered(&mut out, piece, number)?;
    }
    out.push_all(next_part(&mut parts))?;
    Ok(out)
}
