//! Bytes and their hexadecimal digits.

use std::alloc::AllocError;
use std::fmt;

/// Bytes as hexadecimal digits, and none as a dash.
#[derive(Drop)]
pub(crate) struct Digits<'a>(pub(crate) &'a [u8]);

impl fmt::Display for Digits<'_> {
    fn fmt<W: fmt::Write>(&self, f: &mut fmt::Formatter<W>) -> fmt::Result {
        if self.0.is_empty() {
            return write!(f, "-");
        }
        for byte in self.0 {
            write!(f, "{byte:02x}")?;
        }
        Ok(())
    }
}

/// Appends the bytes of some digits; false where they are no digits of whole bytes.
pub(crate) fn push_digits(bytes: &mut Vec<u8>, digits: &str) -> Result<bool, AllocError> {
    if digits.len() % 2 != 0 {
        return Ok(false);
    }
    for pair in digits.as_bytes().chunks_exact(2) {
        let mut byte = [0];
        if hex::decode_to_slice(pair, &mut byte).is_err() {
            return Ok(false);
        }
        bytes.push(byte[0])?;
    }
    Ok(true)
}
