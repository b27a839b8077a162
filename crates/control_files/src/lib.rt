//! Control files as segments: what the BGP peers did, in this project's own format.
//!
//! Clauses see a file as a list of bytes, the segments one behind the other. All numbers have the highest byte first.
//!
//! ```text
//!  kind | peer | moment | position | length      1, 2, 8, 8 and 4 bytes
//!  bytes                                         so many as the length says
//!  kind | peer | ..
//! ```
//!
//! Kind 1 says that a peer's connection is there, 2 that the peer sent these bytes, 3 that the connection is gone. The moment counts
//! microseconds, and the position the frames that come before. Neither falls from segment to segment.
//!
//! What the layer above uses:
//!
//! - `ControlFeed` takes a file in pieces and gives its segments: `push` and `next` for segments with bytes of their own, or
//!   `make_room`, `room`, `filled`, `next_segment` and `segment` for segments that are lent out of the room that they were read
//!   into. What it took and gave is its history (`Stands`); at the end `finish` tells whether that is all.
//! - `ReadsControl` is what a reader of some bytes gets: the whole segments, and where and why there are no more. Bytes have one
//!   reading (`one_reading`, `every_list_of_bytes_is_read`), and those that are read to their end are the control files
//!   (`a_whole_reading_is_a_control_file`). What a feed gave comes first in it (`what_is_given_comes_first`), and where it refused,
//!   the reading ends (`a_refusal_ends_the_reading`).
//! - `segment_head` answers the 23 bytes before a segment's own, and `append_segment` writes a segment, which is read back
//!   (`a_written_segment_is_read`).
//!
//! It does no IO, and does not look into the bytes of a peer.
//!
//! ```text
//! let mut feed = ControlFeed::new(alloc, &setup.peers)?;
//! feed.push(piece)?;
//! while let Some(segment) = feed.next()? { .. }
//! feed.finish()?;
//! ```
#![tactic(auto)]

mod crossing;
mod feeds;
mod heads;
mod laws;
mod reasons;
mod segments;
mod steps;

pub use crossing::types_cross_threads;
pub use feeds::ControlFeed;
pub use heads::{append_segment, segment_head};
pub use laws::{
    a_control_file_has_one_reading, a_refusal_ends_the_reading, a_whole_reading_is_a_control_file,
    a_written_segment_is_read, every_list_of_bytes_is_read, one_reading, what_is_given_comes_first,
};
pub use reasons::{ControlFault, ControlReason, Refusal};
pub use segments::{BYTES, CLOSE, CONNECT, MAX_SEGMENT, Mark, Segment, SegmentHead};
