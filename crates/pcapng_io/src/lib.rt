//! pcapng files as frames, and frames as pcapng files (the PCAP Next Generation file format, sections 3 and 4).
//!
//! Clauses see a file as a list of bytes: blocks, one behind the other, of which the first is a section header.
//!
//! ```text
//!  type | length | body, a multiple of 4 bytes | length          12 bytes and the body's
//!
//!  section header           mark, version, ..                    a section begins; the mark tells its order of bytes
//!  interface description    link type, snapshot length, options  the next interface of the section, from 0 on
//!  enhanced packet          interface, time, two lengths, bytes  a frame
//!  simple packet            one length, bytes                    a frame of interface 0, without a time
//! ```
//!
//! Every other block is skipped unread. A block has at most 1,048,576 bytes, a section at most 1,024 interfaces, a frame at most
//! 262,144 captured bytes and an original length of at most 2,147,483,647.
//!
//! What the layer above uses:
//!
//! - `NgFeed` takes a file in pieces and gives its frames, in either order of bytes: `push` and `next` for frames with bytes of
//!   their own, or `make_room`, `room`, `filled`, `next_frame` and `block` for frames that are lent out of the room that they were
//!   read into. What it took and gave is its history (`Stands`); at the end `finish` tells whether that is all. `begun` tells
//!   whether a section header is there.
//! - `Reads` is what a reader of some bytes gets: the frames, and where and why there are no more. Bytes have one reading
//!   (`one_reading`, `every_list_of_bytes_is_read`), and those that are read to their end are the files
//!   (`a_whole_reading_is_a_file`, `IsNg`). What is told of a frame is within the limits (`frames_are_within_limits`).
//! - `ng_head`, `block_head` and `block_end` answer the bytes before the packets, before each frame's and behind them, and
//!   `encode_ng` a whole packet; `a_written_file_is_read` says that what is written is read back at the same times.
//!
//! It does no IO.
//!
//! ```text
//! let mut feed = NgFeed::new(alloc);
//! feed.push(piece)?;
//! while let Some(frame) = feed.next()? { .. }
//! feed.finish()?;
//! ```
#![tactic(auto)]

mod blocks;
mod crossing;
mod faults;
mod feeds;
mod frames;
mod interface_options;
mod kinds;
mod laws;
mod numbers;
mod openings;
mod sections;
mod times;
mod writing;

pub use crossing::types_cross_threads;
pub use faults::{NgFault, NgReason, NgRefusal};
pub use feeds::NgFeed;
pub use frames::{NgFrame, NgHead};
pub use laws::{
    a_file_has_one_reading, a_refusal_ends_the_reading, a_whole_reading_is_a_file,
    a_written_file_is_read, every_list_of_bytes_is_read, frames_are_within_limits, one_reading,
    what_is_given_comes_first,
};
pub use writing::{BlockEnd, block_end, block_head, encode_ng, has_time, ng_head};
