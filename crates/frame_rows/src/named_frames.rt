//! Frames by their names.

use std::alloc::{AllocError, Global};
use std::str::SplitWhitespace;

/// The most bytes of a frame of zeros, more than a frame may have.
const MOST_ZEROS: usize = 300_000;

/// The bytes of a frame.
#[derive(Drop)]
struct NamedFrame {
    name: String,
    bytes: Vec<u8>,
}

/// The frames of earlier rows, by their names.
#[derive(Drop)]
pub(crate) struct FrameTable {
    alloc: Global,
    held: Vec<NamedFrame>,
}

impl FrameTable {
    pub(crate) fn new(alloc: Global) -> FrameTable {
        FrameTable {
            alloc,
            held: Vec::new(alloc),
        }
    }

    /// Keeps a frame.
    fn keep(&mut self, name: &str, bytes: Vec<u8>) -> Result<(), AllocError> {
        let name = String::from_str(self.alloc, name)?;
        self.held.push(NamedFrame { name, bytes })?;
        Ok(())
    }

    /// Keeps the frame of a row `frame NAME DIGITS ..`; false where it has another form.
    pub(crate) fn keep_digits(&mut self, mut words: SplitWhitespace) -> Result<bool, AllocError> {
        let Some(name) = words.next() else {
            return Ok(false);
        };
        let mut bytes = Vec::new(self.alloc);
        for digits in words {
            if !push_digits(&mut bytes, digits)? {
                return Ok(false);
            }
        }
        self.keep(name, bytes)?;
        Ok(true)
    }

    /// Keeps the frame of a row `zeros NAME COUNT`; false where it has another form.
    pub(crate) fn keep_zeros(&mut self, mut words: SplitWhitespace) -> Result<bool, AllocError> {
        let (Some(name), Some(count)) = (words.next(), words.next()) else {
            return Ok(false);
        };
        let Ok(count) = count.parse::<usize>() else {
            return Ok(false);
        };
        let mut bytes = Vec::new(self.alloc);
        bytes.resize(count.min(MOST_ZEROS), 0)?;
        self.keep(name, bytes)?;
        Ok(true)
    }

    /// The bytes of the frame of this name.
    fn named(&self, name: &str) -> Option<&[u8]> {
        for frame in &self.held {
            if frame.name.as_str() == name {
                return Some(frame.bytes.as_slice());
            }
        }
        None
    }

    /// The bytes of a word `NAME` or `NAME:COUNT`.
    pub(crate) fn front(&self, word: &str) -> Option<&[u8]> {
        let Some((name, count)) = word.split_once(':') else {
            return self.named(word);
        };
        let count = count.parse::<usize>().ok()?;
        self.named(name)?.get(..count)
    }
}

/// Appends the bytes of some digits; false where they are no digits of whole bytes.
fn push_digits(bytes: &mut Vec<u8>, digits: &str) -> Result<bool, AllocError> {
    if digits.len() % 2 != 0 {
        return Ok(false);
    }
    for pair in digits.as_bytes().chunks_exact(2) {
        let mut byte = [0];
        if hex::decode_to_slice(pair, &mut byte).is_err() {
            return Ok(false);
        }
        bytes.push(byte[0])?;
    }
    Ok(true)
}
