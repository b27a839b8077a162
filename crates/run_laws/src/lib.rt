//! That there is a walk of every frame, something that every round says, and a run of every two inputs.
//!
//! ```text
//!  frame, tables ---> walk ---> record of it                        every_frame_has_a_walk
//!  segments ---> log ---> changes ---> table, one record a frame    every_round_says_something
//!  frames, segments ---> rounds ---> run                            every_two_inputs_have_a_run
//! ```
//!
//! What the layer above uses:
//!
//! - `every_frame_has_a_walk` gives the walk of a frame whose lookups see any tables, one after the other (`AreFirst`). With
//!   `a_frame_has_one_walk` of `forwarder` there is exactly one.
//! - `every_round_says_something` gives the records that a round of segments of the setup's peers may say, on one thread and on many.
//! - `every_two_inputs_have_a_run` gives the run of frames and segments; with `there_is_one_single_run` of `worker_run` there is
//!   exactly one on one thread.
//!
//! So what a command says of every run is never said of nothing. Here is no code: want of memory is free where a run is made, so no
//! call says that there is one.
#![tactic(auto)]

mod runs;
mod walks;

pub use runs::{every_round_says_something, every_two_inputs_have_a_run};
pub use walks::every_frame_has_a_walk;
