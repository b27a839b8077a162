//! The texts that the commands write and read, over the crates of the values that they show.
//!
//! Clauses see a text as its bytes, and tie it to what it shows by `ShowsNsh bytes text`, which holds of
//! exactly one text:
//!
//! ```text
//!  0F C5 02 03 00 00 2A FF          nsh o=0 ttl=63 words=5 md=2 next=ethernet spi=42 si=255 spare=0/0
//!  01 23 04 05 11 .. 55 AA BB CC    item class=0123 kind=4 spare=0 body=1122334455 pad=aabbcc
//!  00 00                            payload 2
//! ```
//!
//! What the layer above uses:
//!
//! - `nsh_lines` gives the lines of the header that bytes begin with and of what follows it, or the one line
//!   of their refusal; `nsh_lines_of_front` gives them from the first bytes and the number of those that follow.
//! - `StreamLines` gives the lines of a BGP stream as the stream comes, and then its rest or where it is refused: what it gave for
//!   the bytes so far is a front of the text of the whole stream, whatever follows (`Stands`). `bgp_lines` gives them at once
//!   (`ShowsBgp`).
//! - Bytes, and a stream, have one such text, and always one (`bytes_are_shown_once`, `bytes_are_shown`,
//!   `a_stream_is_shown_once`, `every_stream_is_shown`), so what is shown can be trusted.
//!
//! It does no IO, and takes memory for the text and, of a stream, for a message at a time.
//!
//! ```text
//! let text = nsh_lines(alloc, &bytes)?;   // "refused short 0\n" for no bytes
//!
//! let mut lines = StreamLines::new(alloc);
//! lines.push(piece)?;
//! lines.drain(&mut text)?;                // and at the end of the stream:
//! lines.finish(&mut text)?;
//! ```
#![tactic(auto)]

mod attribute_names;
mod bgp_text;
mod laws;
mod nsh_text;
mod stream_texts;

pub use laws::{
    a_stream_is_shown_once, bytes_are_shown, bytes_are_shown_once, every_stream_is_shown,
};
pub use nsh_text::{nsh_lines, nsh_lines_of_front};
pub use stream_texts::{StreamLines, bgp_lines};
