//! The bytes that a row's text stands for.

use std::alloc::Global;
use wire_base::{Bytes, OutOfMemory};

/// Appends what stands behind a backslash, with the byte that its mark stands for.
fn push_marked(out: &mut Bytes, part: &[u8]) -> Result<(), OutOfMemory> {
    match part {
        [b'n', rest @ ..] => {
            out.push_all(b"\n")?;
            out.push_all(rest)?;
            Ok(())
        }
        _ => Ok(()),
    }
}

/// The bytes of a text. A backslash with no mark behind it, and what follows it up to the next one, is left out.
pub(crate) fn bytes_of(alloc: Global, text: &str) -> Result<Bytes, OutOfMemory> {
    let mut out = Bytes::new(alloc);
    for (i, part) in text.as_bytes().split(|byte| *byte == b'\\').enumerate() {
        if i == 0 {
            out.push_all(part)?;
        } else {
            push_marked(&mut out, part)?;
        }
    }
    Ok(out)
}
