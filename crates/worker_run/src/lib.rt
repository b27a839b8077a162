//! Rounds of segments and frames: the control side steps, and the frames of a batch are forwarded.
//!
//! ```text
//!  segments -- sessions --> changes --> routes --> table, version n      replies
//!                                                    |
//!  batch of frames -------------------------------> forward --> a record for each, and the frame that its walk leaves
//! ```
//!
//! Clauses see a `Batch` as the list of its frames, each with its record (`Carried`), and a `Runner` as what it stands for
//! (`Stands`): the segments so far, and the log of their effects. Its version is the number of changes that the log has, and its
//! table is the one after them.
//!
//! What the layer above uses:
//!
//! - `Batch::push_lent` copies a frame in, once; `clear` lets the frames go and keeps their buffers for the next round.
//! - `Runner::single_round` steps the segments first, then forwards all frames over the last version, as worker 0 (`Rounded`). What a
//!   round says of its frames is `SaysSingle`, one record for each in order.
//! - `Runner::round` publishes a version for each change of routes, while workers on threads of their own forward the frames, each over
//!   the versions that its lookups meet (`RoundedOnThreads`). What a round says of its frames is `SaysRun`. It may wait.
//! - `Batch::end_of`, `bytes_of`, `original_of` and `times_of` give a frame's record, and the frame that its walk leaves, with its times as read.
//! - What records put at the outputs is said by `EgressOf`, `LinesOf` and `RepliesOf`.
//!
//! A round makes its buffers before it forwards its first frame. It does no IO. `single_round` starts no thread; those that `round`
//! starts end with it. After want of memory a runner has failed, and every further round says so.
//!
//! ```text
//! let mut runner = Runner::new(alloc, setup, 1)?;
//! batch.push_lent(head, bytes)?;
//! let replies = runner.single_round(&mut batch, &segments)?;
//! batch.end_of(0)                          // the first frame's record
//! ```
#![tactic(auto)]

mod batches;
mod controls;
mod crossing;
mod deals;
mod forwarding;
mod laws;
mod parts;
mod runners;
mod runs;
mod shares;
mod thread_rounds;
mod versions;
mod windows;

pub use batches::Batch;
pub use crossing::types_cross_threads;
pub use laws::a_round_says_one_list;
pub use runners::Runner;
pub use runs::{
    a_run_is_what_its_rounds_say, a_single_run_is_a_run, a_single_run_is_what_its_rounds_say,
    there_is_one_single_run,
};
