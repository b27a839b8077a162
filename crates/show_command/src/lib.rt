//! The commands `show nsh FILE` and `show bgp FILE`: the lines that show the bytes of a file.
//!
//! What the layer above uses:
//!
//! - `show_call` takes the words and does what they say over a desk (`ShowCall`): with Ok, Report took exactly the text
//!   that shows the bytes of the file, or their refusal (`ShowWrites`); after a failed call, want of memory or a source
//!   that is too long, a front of that.
//!
//! The source is read in pieces: of a header its first 252 bytes are kept and those that follow are counted, and the lines of a
//! stream are written as they are found (`StreamLines`). So it takes the same memory for any source.
//!
//! Nothing here says what a real file holds, or that memory is there.
//!
//! ```text
//! let status = show_call(alloc, &words, &mut desk);    // show nsh in
//! ```
#![tactic(auto)]

mod header_texts;
mod show_calls;
mod show_words;
mod sources;
mod streams;

pub use show_calls::show_call;
