//! That the records of a run tell the ways of their frames, whatever makes it.
//!
//! ```text
//!  record of a run ---> walk ---> at most 63 turns and 62 versions
//!                            ---> the service index falls
//!                            ---> where the path stays the same under way, straight along it
//! ```
//!
//! What the layer above uses:
//!
//! - `records_of_a_run_tell_their_ways` gives for each frame of a run, on any number of workers, what its record says of its way
//!   (`IsToldRun`). A run on one thread is one on one worker (`a_single_run_is_a_run` of `worker_run`).
//!
//! Here is no code: what is said of each walk by the laws of `forwarder` is said of each record of a run, over the versions of the table.
#![tactic(auto)]

mod laws;

pub use laws::records_of_a_run_tell_their_ways;
