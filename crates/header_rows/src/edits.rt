//! Edits of a header where it lies.

use crate::digits::bytes_of;
use anyhow::bail;
use nsh_headers::{lower_ttl, set_si, set_ttl};
use std::alloc::Global;

/// Sets what the word names to a number.
fn set(word: &str, header: &mut [u8; 8], number: u8) -> anyhow::Result<()> {
    match word {
        "set-ttl" if number < 64 => set_ttl(header, number),
        "set-si" => set_si(header, number),
        _ => bail!("no edit, or a TTL above 63"),
    }
    Ok(())
}

/// Prints the header after the edit, and what a lowered TTL is then.
pub(crate) fn show<R: Print>(rt: &R, alloc: Global, word: &str, rest: &str) -> anyhow::Result<()> {
    let (number, digits) = match rest.split_once(' ') {
        Some((number, digits)) if word != "lower-ttl" => (number.parse::<u8>()?, digits),
        _ => (0, rest),
    };
    let bytes = bytes_of(alloc, digits)?;
    let mut header = [0u8; 8];
    if bytes.len() != 8 {
        bail!("a header of 8 bytes is edited");
    }
    header.copy_from_slice(&bytes);
    if word == "lower-ttl" {
        let ttl = lower_ttl(&mut header);
        println!(rt; "ttl {ttl}")?;
    } else {
        set(word, &mut header, number)?;
    }
    println!(rt; "{}", hex::encode(alloc, header)?.as_str())?;
    Ok(())
}
