//! Capture files (libpcap, version 2.4) as frames, and frames as capture files.
//!
//! Clauses see a file as a list of bytes: a file header, then a packet for each frame.
//!
//! ```text
//!  magic | version | zone | accuracy | snapshot length | link type      24 bytes
//!  seconds | fraction | captured length | original length | bytes      16 bytes and the frame's
//!  seconds | fraction | ..
//! ```
//!
//! What the layer above uses:
//!
//! - `CaptureFeed` takes a file in pieces and gives its frames, in any of the four forms: `push` and `next` for frames with
//!   bytes of their own, or `make_room`, `room`, `filled`, `next_packet` and `packet` for frames that are lent out of the room
//!   that they were read into. What it took and gave is its history (`Stands`); at the end `finish` tells whether that is all.
//! - `Reads` is what a reader of some bytes gets: the form, the whole frames, and where and why there are no more. Bytes have
//!   one reading (`one_reading`, `every_list_of_bytes_is_read`), and those that are read to their end are the captures
//!   (`a_whole_reading_is_a_capture`).
//! - `capture_head` and `packet_head` answer the bytes that stand before the frames and before each
//!   frame (`file_head`, `packet_head_of`), in any of the four forms; `egress_of` is the file of the frames that leave.
//!
//! It does no IO.
//!
//! ```text
//! let mut feed = CaptureFeed::new(alloc);
//! feed.push(piece)?;
//! while let Some(frame) = feed.next()? { .. }
//! feed.finish()?;
//! ```
#![tactic(auto)]

mod crossing;
mod feeds;
mod forms;
mod frames;
mod heads;
mod laws;
mod reasons;
mod steps;

pub use crossing::types_cross_threads;
pub use feeds::CaptureFeed;
pub use forms::Form;
pub use frames::{Captured, MAX_CAPTURED, MAX_ORIGINAL, PacketHead};
pub use heads::{capture_head, packet_head};
pub use laws::{
    a_capture_has_one_reading, a_whole_reading_is_a_capture, every_list_of_bytes_is_read,
    one_reading,
};
pub use reasons::{CaptureFault, CaptureReason, Refusal};
