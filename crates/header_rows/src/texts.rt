//! The lines of `show`.

use anyhow::bail;
use sfc_texts::{bgp_lines, nsh_lines};
use std::alloc::Global;
use wire_base::{Bytes, OutOfMemory};

/// Prints a text.
fn show<R: Print>(rt: &R, text: Result<Bytes, OutOfMemory>) -> anyhow::Result<()> {
    let Ok(text) = text else {
        bail!("no memory for a text");
    };
    print!(rt; "{}", std::str::from_utf8(text.as_slice())?)?;
    Ok(())
}

/// Prints the lines of a header.
pub(crate) fn show_nsh<R: Print>(rt: &R, alloc: Global, bytes: &[u8]) -> anyhow::Result<()> {
    show(rt, nsh_lines(alloc, bytes))
}

/// Prints the lines of a stream of BGP messages.
pub(crate) fn show_bgp<R: Print>(rt: &R, alloc: Global, stream: &[u8]) -> anyhow::Result<()> {
    show(rt, bgp_lines(alloc, stream))
}
