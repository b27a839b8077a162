//! The bytes that a row's input stands for.

use std::alloc::Global;
use text_words::{print_four_digits, print_number, read_four_digits};
use wire_base::{Bytes, OutOfMemory};

/// Two texts, one behind the other.
pub(crate) fn joined(alloc: Global, front: &[u8], behind: &[u8]) -> Result<Bytes, OutOfMemory> {
    let mut out = Bytes::copy_of(alloc, front)?;
    out.push_all(behind)?;
    Ok(out)
}

/// The byte of two hexadecimal digits.
fn byte_of(high: u8, low: u8) -> Option<u8> {
    match read_four_digits(&[b'0', b'0', high, low]) {
        Some(number) => Some((number % 256) as u8),
        None => None,
    }
}

/// Appends what stands behind a backslash, with the byte that its mark stands for.
fn push_marked(out: &mut Bytes, part: &[u8]) -> Result<(), OutOfMemory> {
    match part {
        [b'n', rest @ ..] => {
            out.push_all(b"\n")?;
            out.push_all(rest)?;
        }
        [b'x', high, low, rest @ ..] => {
            if let Some(byte) = byte_of(*high, *low) {
                out.push_all(&[byte])?;
            }
            out.push_all(rest)?;
        }
        _ => {}
    }
    Ok(())
}

/// The bytes of an input. A backslash with no mark behind it, and what follows it up to the next one, is left out.
pub(crate) fn bytes_of(alloc: Global, input: &str) -> Result<Bytes, OutOfMemory> {
    let mut out = Bytes::new(alloc);
    for (i, part) in input.as_bytes().split(|byte| *byte == b'\\').enumerate() {
        if i == 0 {
            out.push_all(part)?;
        } else {
            push_marked(&mut out, part)?;
        }
    }
    Ok(out)
}

/// Appends a line, with the number in place of its marks.
fn push_numbered(out: &mut Bytes, line: &[u8], number: u16) -> Result<(), OutOfMemory> {
    for (i, part) in line.split(|byte| *byte == b'{').enumerate() {
        if i == 0 {
            out.push_all(part)?;
            continue;
        }
        match part {
            [b'n', b'}', rest @ ..] => {
                print_number(out, u64::from(number) + 1)?;
                out.push_all(rest)?;
            }
            [b'h', b'}', rest @ ..] => {
                print_four_digits(out, number)?;
                out.push_all(rest)?;
            }
            _ => {}
        }
    }
    Ok(())
}

/// A text with a line behind it as often as is asked for, each time with its number.
pub(crate) fn repeated(
    alloc: Global,
    front: &[u8],
    count: u16,
    line: &[u8],
) -> Result<Bytes, OutOfMemory> {
    let mut out = Bytes::copy_of(alloc, front)?;
    for number in 0..count {
        push_numbered(&mut out, line, number)?;
    }
    Ok(out)
}
