//! How bytes are printed and read.

use std::alloc::{AllocError, Global};
use std::fmt;
use std::str::SplitWhitespace;

/// The most bytes that are printed; of more, the first 24 and how many there are.
const SHOWN: usize = 256;

const FRONT: usize = 24;

/// Bytes as hexadecimal digits, and none as a dash.
#[derive(Drop)]
pub(crate) struct Digits<'a>(pub(crate) &'a [u8]);

impl fmt::Display for Digits<'_> {
    fn fmt<W: fmt::Write>(&self, f: &mut fmt::Formatter<W>) -> fmt::Result {
        let bytes = self.0;
        if bytes.is_empty() {
            return write!(f, "-");
        }
        if bytes.len() <= SHOWN {
            return write_digits(f, bytes);
        }
        write_digits(f, &bytes[..FRONT])?;
        write!(f, ".. {}", bytes.len())
    }
}

fn write_digits<W: fmt::Write>(f: &mut fmt::Formatter<W>, bytes: &[u8]) -> fmt::Result {
    for byte in bytes {
        write!(f, "{byte:02x}")?;
    }
    Ok(())
}

/// The bytes of the digits of some words; None where they are no digits of whole bytes.
pub(crate) fn read_bytes(
    alloc: Global,
    words: SplitWhitespace,
) -> Result<Option<Vec<u8>>, AllocError> {
    let mut bytes = Vec::new(alloc);
    for digits in words {
        if !push_digits(&mut bytes, digits)? {
            return Ok(None);
        }
    }
    Ok(Some(bytes))
}

/// Appends the bytes of some digits; false where they are no digits of whole bytes.
fn push_digits(bytes: &mut Vec<u8>, digits: &str) -> Result<bool, AllocError> {
    if digits.len() % 2 != 0 {
        return Ok(false);
    }
    for pair in digits.as_bytes().chunks_exact(2) {
        let mut byte = [0];
        if hex::decode_to_slice(pair, &mut byte).is_err() {
            return Ok(false);
        }
        bytes.push(byte[0])?;
    }
    Ok(true)
}
