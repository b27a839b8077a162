//! That every frame, every round and every two inputs hand something over between forwarders, whatever puts it.
//!
//! ```text
//!  frame of bytes ---> walk ---> stations: bytes, and a header that has a spelling ---> packets between forwarders
//! ```
//!
//! What the layer above uses:
//!
//! - `every_frame_hands_something_over` gives the packets of a frame of which there is a record on one thread.
//! - `every_round_hands_something_over` gives those of a round, for each of its frames.
//! - `every_two_inputs_have_a_trace` gives the trace of frames and segments; with `there_is_one_trace` of `frame_traces` there is
//!   exactly one.
//!
//! Here is no code: want of memory is free where a packet is put, so no call says that there is one.
#![tactic(auto)]

mod laws;

pub use laws::{
    every_frame_hands_something_over, every_round_hands_something_over,
    every_two_inputs_have_a_trace,
};
