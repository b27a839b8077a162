//! The fields and edits of a captured frame.
//!
//! Clauses see a `Frame` as its room, its captured bytes and its length on the wire (`Captured`), and
//! its headers where they are captured:
//!
//! ```text
//!  0        6        12         12 + 4 * tags     network              transport
//!  | to     | from   | tags     | Ethernet type | IPv4 or IPv6 header | TCP or UDP ..
//! ```
//!
//! What the layer above uses:
//!
//! - `Frame::with_room` takes the memory of a frame once; no later call takes any.
//! - `Frame::fill` puts captured bytes in, or says that they pass the room.
//! - `Frame::fields` reads every field that is captured (`fields_of`).
//! - `set_dscp`, `set_ipv4_address`, `lower_hop_limit`, `pop_vlan` and `push_vlan` leave exactly
//!   `marked`, `readdressed`, `lowered`, `untagged` and `tagged` of what was there.
//! - A checksum that was right before an edit is right after it (`header_stays_right`,
//!   `segment_stays_right`, `ipv6_segment_stays_right`, `a_tag_leaves_checksums_right`).
//!
//! It does no IO, puts no fragments together, and reads no IPv6 extension headers.
//!
//! ```text
//! let mut frame = Frame::with_room(alloc, 2048)?;
//! frame.fill(bytes, original)?;
//! set_dscp(&mut frame, 46);
//! let port = frame.fields().to_port;
//! ```
#![tactic(auto)]

mod checksums;
mod contents;
mod crossing;
mod edits;
mod frames;
mod laws;
mod layouts;
mod words;

pub use contents::{Fields, Side};
pub use crossing::types_cross_threads;
pub use frames::{Frame, lower_hop_limit, pop_vlan, push_vlan, set_dscp, set_ipv4_address};
pub use laws::{
    a_fold_adds_the_carries, a_tag_leaves_checksums_right, header_stays_right,
    ipv6_segment_stays_right, segment_stays_right,
};
