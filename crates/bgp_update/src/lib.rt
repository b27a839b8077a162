//! The content of a BGP UPDATE, as a value that is exactly its bytes.
//!
//! ```text
//!  [ withdrawn length ][ withdrawn ][ attribute length ][ attribute ][ attribute ] .. [ NLRI ]
//!                                                        flags kind length value
//! ```
//!
//! The multiprotocol attributes of the service function family (AFI 31, SAFI 9) and the extended communities are read;
//! all else is kept unread, byte for byte.
//!
//! What the layer above uses:
//!
//! - `decode_update` answers the value that the bytes spell (`IsUpdate`), or the first fault and its place (`Refused`).
//! - `encode_update` writes the one spelling of an update, so each undoes the other.
//! - `attributes_in` finds the bytes of the attributes of a content without memory (`HasUpdate`), or the same refusal, and
//!   `attribute_at` cuts one attribute from the next.
//! - `Update::broken` is that the first attribute of extended communities is none.
//! - `Nlri::same` and `Nlri::copy` compare and copy a route.
//! - Two readings of the same bytes are one (`one_reading`), and there always is one (`every_content_is_read_or_refused`).
//!
//! It looks into no attribute of another kind, gives no meaning to a route, and does no IO.
//!
//! ```text
//! let update = decode_update(alloc, content)?;
//! for attribute in update.attributes.as_slice() {
//!     take(attribute);
//! }
//! ```
#![tactic(auto)]

mod attributes;
mod bodies;
mod checking;
mod communities;
mod decoding;
mod encoding;
mod faults;
mod laws;
mod nlri_lists;
mod parts;
mod pieces;
mod reach;
mod routes;
mod updates;

pub use attributes::{Attribute, Body, MpReach, MpUnreach};
pub use checking::attributes_in;
pub use decoding::decode_update;
pub use encoding::encode_update;
pub use faults::{MALFORMED_ATTRIBUTE_LIST, UPDATE_MESSAGE_ERROR, UpdateFault};
pub use laws::{every_content_is_read_or_refused, one_reading};
pub use pieces::{AttributePiece, attribute_at};
pub use routes::Nlri;
pub use updates::Update;
pub use wire_base::NextHop;
