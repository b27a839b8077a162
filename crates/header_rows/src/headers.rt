//! Headers, whole and in pieces.

use crate::digits::bytes_of;
use nsh_headers::decode_head;
use nsh_metadata::{Context, ItemList, Nsh, NshFeed, NshStep, decode_nsh, encode_nsh};
use std::alloc::Global;

/// Whether a header is written as these bytes, and a copy of it too.
fn is_written_as(nsh: &Nsh, bytes: &[u8]) -> bool {
    let mut out = [0xEE; 252];
    match encode_nsh(&nsh.copy(), &mut out) {
        Ok(size) => out.get(..size) == Some(bytes),
        Err(_) => false,
    }
}

/// Prints the items, a line each.
fn show_items<R: Print>(rt: &R, items: &ItemList) -> anyhow::Result<()> {
    for i in 0..items.len() {
        println!(rt; "{:?}", items.item(i))?;
    }
    println!(rt; "{} items, none: {}", items.len(), items.is_empty())?;
    Ok(())
}

/// Prints the context of a header.
fn show_context<R: Print>(rt: &R, context: &Context) -> anyhow::Result<()> {
    match context {
        Context::Fixed16(bytes) => println!(rt; "{bytes:?}")?,
        Context::Items(items) => show_items(rt, items)?,
    }
    Ok(())
}

/// Prints what the first 8 bytes are, the header that the bytes begin with, how many it takes, and whether it is written as those
/// again; or the fault.
pub(crate) fn show<R: Print>(rt: &R, bytes: &[u8]) -> anyhow::Result<()> {
    let head = decode_head(bytes);
    println!(rt; "{head:?}")?;
    match decode_nsh(bytes) {
        Ok((nsh, size)) => {
            show_context(rt, &nsh.context)?;
            let again = match bytes.get(..size) {
                Some(own) => is_written_as(&nsh, own),
                None => false,
            };
            let same = head == Ok(nsh.head);
            println!(rt; "{size} bytes, with this head: {same}, written again: {again}")?;
        }
        Err(fault) => println!(rt; "{fault:?}")?,
    }
    Ok(())
}

/// Prints what a feed answers to a piece.
fn show_step<R: Print>(rt: &R, step: &NshStep) -> anyhow::Result<()> {
    match step {
        NshStep::More => println!(rt; "More")?,
        NshStep::Whole(nsh, taken) => println!(rt; "{:?}, {taken} bytes of the piece", nsh.head)?,
        NshStep::Fault(fault) => println!(rt; "{fault:?}")?,
    }
    Ok(())
}

/// Prints what one feed answers to each piece.
pub(crate) fn show_feed<R: Print>(rt: &R, alloc: Global, pieces: &str) -> anyhow::Result<()> {
    let mut feed = NshFeed::new();
    for piece in pieces.split(' ') {
        let step = feed.push(&bytes_of(alloc, piece)?);
        show_step(rt, &step)?;
    }
    Ok(())
}
