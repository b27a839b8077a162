//! Rows of BGP messages and of contents of UPDATEs, run through `bgp_messages` and `bgp_update`.
//!
//! A line of standard input is a row, a word and hexadecimal digits, with spaces between them as they please, or - for none:
//!
//! ```text
//! # TEXT          what the next row shows; printed again
//! stream HEX      a stream of messages: given to a feed whole, in single bytes and in every cutting into two
//! content HEX     the content of an UPDATE: decoded, and written again
//! ```
//!
//! The answers are written from RFC 4271, RFC 4760 and RFC 5492, in the form that `{:?}` prints.
#![tactic(auto)]

mod contents;
mod digits;
mod streams;

use std::alloc::Global;

/// Prints what a row shows.
fn show_row<R: Print>(rt: &R, alloc: Global, row: &str) -> anyhow::Result<()> {
    if let Some(digits) = row.strip_prefix("stream ") {
        return streams::show(rt, alloc, &digits::bytes_of(alloc, digits)?);
    }
    if let Some(digits) = row.strip_prefix("content ") {
        return contents::show(rt, alloc, &digits::bytes_of(alloc, digits)?);
    }
    println!(rt; "{row}")?;
    Ok(())
}

fn main(rt: HostRuntime) -> anyhow::Result<()> {
    for row in rt.lines(rt.alloc()) {
        show_row(&rt, rt.alloc(), row?.as_str())?;
    }
    Ok(())
}
