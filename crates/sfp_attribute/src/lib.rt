//! The SFP attribute of service function path routes, as a value that is exactly its bytes (after RFC 9015, section 3.2).
//!
//! ```text
//!  [ part ][ part ] ..        part: kind 1 | length 2 | value
//!    |       |
//!    |       hop: SI 1 | [ SFT: type 2 | RD 8 | RD 8 .. ][ SFT ] ..
//!    association: type 1 | RD 8 | SPI 3
//! ```
//!
//! The layout, the kinds and the refusals are this project's profile. Kinds from 6 on are kept unread, byte for byte.
//!
//! What the layer above uses:
//!
//! - `decode_sfp` answers the attribute that the value spells (`IsSfp`), or the first fault (`Refused`).
//! - `encode_sfp` writes the one spelling of an attribute, so each undoes the other.
//! - `Sfp::copy` and `Sfp::same` copy and compare an attribute.
//! - Two readings of the same value are one (`one_reading`), and there always is one (`every_value_is_read_or_refused`).
//!
//! It looks for no instance, gives no meaning to an association, and does no IO. The attribute's flags, kind and length stand
//! in the UPDATE.
//!
//! ```text
//! let sfp = decode_sfp(alloc, value)?;
//! let again = encode_sfp(alloc, &sfp)?;       // the same bytes
//! ```
#![tactic(auto)]

mod copies;
mod crossing;
mod decoding;
mod encoding;
mod faults;
mod hop_parts;
mod laws;
mod levels;
mod pieces;
mod sfps;

pub use crossing::types_cross_threads;
pub use decoding::decode_sfp;
pub use encoding::encode_sfp;
pub use faults::SfpFault;
pub use laws::{every_value_is_read_or_refused, one_reading};
pub use sfps::{HopPart, Part, Sfp};
