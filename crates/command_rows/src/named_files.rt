//! The files that a desk holds.

use crate::digits::push_digits;
use std::alloc::{AllocError, Global};
use std::str::SplitWhitespace;

/// The file header of a capture in microseconds with the lowest byte first.
const CAPTURE_HEAD: [u8; 24] = [
    0xD4, 0xC3, 0xB2, 0xA1, 2, 0, 4, 0, 0, 0, 0, 0, 0, 0, 0, 0, 0, 0, 4, 0, 1, 0, 0, 0,
];

/// The head of a packet of 60 bytes at second 1 and microsecond 2.
const PACKET_HEAD: [u8; 16] = [1, 0, 0, 0, 2, 0, 0, 0, 60, 0, 0, 0, 60, 0, 0, 0];

/// A name and bytes.
#[derive(Drop)]
pub(crate) struct NamedFile {
    pub(crate) name: String,
    pub(crate) bytes: Vec<u8>,
}

/// The file of a row `file NAME DIGITS ..`; None where it has another form.
pub(crate) fn file_of_digits(
    alloc: Global,
    words: &mut SplitWhitespace,
) -> Result<Option<NamedFile>, AllocError> {
    let Some(name) = words.next() else {
        return Ok(None);
    };
    let name = String::from_str(alloc, name)?;
    let mut bytes = Vec::new(alloc);
    for digits in words {
        if !push_digits(&mut bytes, digits)? {
            return Ok(None);
        }
    }
    Ok(Some(NamedFile { name, bytes }))
}

/// The file of a row `frames NAME COUNT`; None where it has another form.
pub(crate) fn file_of_frames(
    alloc: Global,
    words: &mut SplitWhitespace,
) -> Result<Option<NamedFile>, AllocError> {
    let (Some(name), Some(count)) = (words.next(), words.next()) else {
        return Ok(None);
    };
    let Ok(count) = count.parse::<u16>() else {
        return Ok(None);
    };
    let name = String::from_str(alloc, name)?;
    let mut bytes = Vec::from_slice(alloc, &CAPTURE_HEAD)?;
    for _ in 0..count {
        push_frame(&mut bytes)?;
    }
    Ok(Some(NamedFile { name, bytes }))
}

fn push_frame(bytes: &mut Vec<u8>) -> Result<(), AllocError> {
    bytes.extend_from_slice(&PACKET_HEAD)?;
    for byte in 0..60u8 {
        bytes.push(byte)?;
    }
    Ok(())
}

/// Appends the line of a row `text NAME WORD ..` to the file of this name, or begins it; false where the row has another
/// form.
pub(crate) fn push_line(
    alloc: Global,
    files: &mut Vec<NamedFile>,
    words: &mut SplitWhitespace,
) -> Result<bool, AllocError> {
    let Some(name) = words.next() else {
        return Ok(false);
    };
    for file in files.as_mut_slice() {
        if file.name.as_str() == name {
            push_words(&mut file.bytes, words)?;
            return Ok(true);
        }
    }
    let mut bytes = Vec::new(alloc);
    push_words(&mut bytes, words)?;
    let name = String::from_str(alloc, name)?;
    files.push(NamedFile { name, bytes })?;
    Ok(true)
}

/// Appends the words with a space between them, and the end of a line.
fn push_words(bytes: &mut Vec<u8>, words: &mut SplitWhitespace) -> Result<(), AllocError> {
    let mut is_first = true;
    for word in words {
        if !is_first {
            bytes.push(b' ')?;
        }
        bytes.extend_from_slice(word.as_bytes())?;
        is_first = false;
    }
    bytes.push(b'\n')?;
    Ok(())
}
