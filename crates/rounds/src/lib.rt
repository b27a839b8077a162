//! Rounds: in which steps a run takes the frames of a capture and the segments of a control file, and which of them count where an
//! input is refused.
//!
//! Clauses see frames and segments as lists, and a round as the segments that are stepped and the frames that are forwarded
//! behind them.
//!
//! ```text
//!   frames     0 1 2 3 4 5 6 7 8 9          segments at positions 3 and 7
//!   rounds    [0 1 2] [s 3 4 5 6] [s 7 8 9]
//! ```
//!
//! A cut is the beginning, the end, each multiple of 256 and each segment's position. The segments at a cut are taken in groups of
//! 256; the last group and the frames up to the next cut are one round, and every other group is a round without frames. So is
//! every group at the beginning and at the end.
//!
//! What the layer above uses:
//!
//! - `Rounds` says which rounds two inputs have, from the front of what is left (`one_list_of_rounds`).
//! - `end_of` says which fault is answered (`RunEnd`), and `counted` which rounds count then: they are the rounds of the frames and
//!   segments that count (`rounds_of_what_counts`).
//! - `places_of` gives each frame with the segments before its round and up to it. On one thread that is how many stand at or
//!   before it (`a_frame_is_read_behind_the_segments_at_or_before_it`).
//! - `Lines` says what may be said of rounds, for any word `Says` of one. `View`, `Gives` and `Leads` follow a run from round to
//!   round (`proofs/LeadLemmas.antt`, `proofs/EndLemmas.antt`), on one thread and on many.
//!
//! It reads nothing and runs nothing.
#![tactic(auto)]

mod ends;
mod laws;

pub use ends::RunEnd;
pub use laws::{
    a_frame_is_read_behind_the_segments_at_or_before_it, frames_that_count_after_a_control_fault,
    one_list_of_rounds, rounds_of_what_counts, rounds_of_what_counts_after_a_capture_fault,
};
