//! Rows of Network Service Headers, and of the lines that show them and BGP streams, run through `nsh_headers`, `nsh_metadata` and
//! `sfc_texts`.
//!
//! A line of standard input is a row, a word and hexadecimal digits, with spaces between the digits as they please (but for a
//! feed's pieces), or - for none:
//!
//! ```text
//! # TEXT                         what the next row shows; printed again
//! header HEX                     the head, the header with its context, and whether it is written again
//! feed HEX HEX ..                pieces that one feed gets in turn
//! lower-ttl HEX                  a header of 8 bytes, edited in place
//! set-ttl N HEX   set-si N HEX   the same; N in decimal
//! items COUNT CLASS KIND HEX     an item that is added COUNT times to none; HEX its body
//! show-nsh HEX   show-bgp HEX    the lines that show the bytes
//! ```
//!
//! The answers are written from RFC 8300, and of BGP from RFC 4271 and RFC 4760.
#![tactic(auto)]

mod digits;
mod edits;
mod headers;
mod item_lists;
mod texts;

use std::alloc::Global;

/// Prints what a row shows.
fn show_row<R: Print>(rt: &R, alloc: Global, row: &str) -> anyhow::Result<()> {
    let Some((word, rest)) = row.split_once(' ') else {
        println!(rt; "{row}")?;
        return Ok(());
    };
    match word {
        "header" => headers::show(rt, &digits::bytes_of(alloc, rest)?),
        "feed" => headers::show_feed(rt, alloc, rest),
        "lower-ttl" | "set-ttl" | "set-si" => edits::show(rt, alloc, word, rest),
        "items" => item_lists::show(rt, alloc, rest),
        "show-nsh" => texts::show_nsh(rt, alloc, &digits::bytes_of(alloc, rest)?),
        "show-bgp" => texts::show_bgp(rt, alloc, &digits::bytes_of(alloc, rest)?),
        _ => {
            println!(rt; "{row}")?;
            Ok(())
        }
    }
}

fn main(rt: HostRuntime) -> anyhow::Result<()> {
    for row in rt.lines(rt.alloc()) {
        show_row(&rt, rt.alloc(), row?.as_str())?;
    }
    Ok(())
}
