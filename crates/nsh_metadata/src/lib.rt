//! Whole Network Service Headers (RFC 8300, section 2): the first 8 bytes, and the context behind them.
//!
//! Clauses see a header as its head and its context, a context as 16 bytes or as a list of items, and tie
//! them to bytes by `IsNsh bytes header`, which holds of exactly one header and of exactly its bytes:
//!
//! ```text
//!  0F C5 02 03 00 00 2A FF | 01 23 04 05 11 22 33 44 55 AA BB CC
//!  head: Length 5 words,   | item: class 0123, type 4, 5 bytes of body,
//!  MD Type 2, SPI 42 ..    |       pad AA BB CC
//! ```
//!
//! What the layer above uses:
//!
//! - `decode_nsh` gives the header that the bytes begin with and its size, exactly where there is one
//!   (`BeginsWith`), and else the first refusal (`Refused`).
//! - `encode_nsh` writes the one spelling of a header. So a header is read back whatever follows it, and what
//!   was read is written back byte for byte (`one_spelling`).
//! - `NshFeed::push` answers the same for every cutting into pieces (`any_cutting`): `More` exactly where the
//!   bytes so far are no whole header and show no fault (`Held`).
//! - `Nsh::push_item`, `Nsh::clear_context` and `Nsh::set_si` change a header, and `Context::has_item` finds an item by
//!   class and type. The functions `push_item`, `clear_context` and `has_item` do the same in a header's bytes, which
//!   are then the spelling of the changed header.
//! - An `ItemList` is the list of its items; `push` adds one, unless they would pass 244 bytes.
//!
//! No call takes memory: a header lies in 300 bytes of its own, and `copy` copies it.
//!
//! ```text
//! let (nsh, size) = decode_nsh(&frame)?;
//! if let Context::Items(items) = &nsh.context {
//!     let first = items.item(0);          // class, type, spare bit, body and pad
//! }
//! encode_nsh(&nsh, &mut out)?;            // the same `size` bytes
//! ```
#![tactic(auto)]

mod contexts;
mod crossing;
mod decoding;
mod encoding;
mod feeds;
mod headers;
mod in_place;
mod items;
mod laws;
mod surveys;

pub use contexts::{Context, ItemFault};
pub use crossing::types_cross_threads;
pub use decoding::decode_nsh;
pub use encoding::encode_nsh;
pub use feeds::{NshFeed, NshStep};
pub use headers::Nsh;
pub use in_place::{clear_context, has_item, push_item};
pub use items::{ItemList, ItemRef};
pub use laws::{any_cutting, one_header, one_refusal, one_spelling, spelled_is_not_refused};
