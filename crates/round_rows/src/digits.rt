//! Hexadecimal digits.

use std::alloc::AllocError;
use std::str::SplitWhitespace;

/// Appends the bytes of some digits; false where they are no digits of whole bytes.
fn push_digits(bytes: &mut Vec<u8>, digits: &str) -> Result<bool, AllocError> {
    if digits.len() % 2 != 0 {
        return Ok(false);
    }
    for pair in digits.as_bytes().chunks_exact(2) {
        let mut byte = [0];
        if hex::decode_to_slice(pair, &mut byte).is_err() {
            return Ok(false);
        }
        bytes.push(byte[0])?;
    }
    Ok(true)
}

/// Appends the bytes of all words; false where one is no digits of whole bytes.
pub(crate) fn push_words(
    bytes: &mut Vec<u8>,
    words: &mut SplitWhitespace,
) -> Result<bool, AllocError> {
    for digits in words {
        if !push_digits(bytes, digits)? {
            return Ok(false);
        }
    }
    Ok(true)
}
