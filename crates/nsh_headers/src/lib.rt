//! The first 8 bytes of a Network Service Header (NSH): the base header and the service path header
//! (RFC 8300, sections 2.2 and 2.3).
//!
//! Clauses tie bytes to fields by `IsHead bytes head`: the front of the bytes spells the head.
//!
//! ```text
//!  0                   1                   2                   3
//!  0 1 2 3 4 5 6 7 8 9 0 1 2 3 4 5 6 7 8 9 0 1 2 3 4 5 6 7 8 9 0 1
//! |Ver|O|-|    TTL    |   Length  |-|-|-|-|MD Type| Next Protocol |
//! |          service path identifier (SPI)        | service index |
//! ```
//!
//! What the layer above uses:
//!
//! - `decode_head` gives the head exactly where the bytes spell one whose Length fits its MD Type, and
//!   else the first refusal (`HeadRefused`).
//! - `encode_head` gives 8 bytes that spell the head.
//! - `lower_ttl`, `set_ttl`, `set_words` and `set_si` edit a header where it lies. Each changes its own bits alone, in
//!   bytes that are no header too; where the bytes spell a head, they then spell it with the new field.
//!
//! It reads no context (that is `nsh_metadata`), takes no memory, and keeps every unassigned bit.
//!
//! ```text
//! let mut header = encode_head(&head);    // TTL 63
//! let ttl = lower_ttl(&mut header);       // 62
//! set_si(&mut header, 254);
//! let back = decode_head(&header)?;       // the head with TTL 62 and SI 254
//! ```
#![tactic(auto)]

mod decoding;
mod edits;
mod encoding;
mod faults;
mod heads;
mod laws;

pub use decoding::decode_head;
pub use edits::{lower_ttl, set_si, set_ttl, set_words};
pub use encoding::encode_head;
pub use faults::NshFault;
pub use heads::{Base, NshHead, ServicePath};
pub use laws::{one_head, one_refusal, one_spelling, spelled_is_not_refused};
