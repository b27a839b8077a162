//! The command `run SETUP CAPTURE CONTROL EGRESS LINES REPLIES WORKERS`: the run on several workers over a capture and a control file.
//!
//! ```text
//!  segments of a round ---> versions of the path table, published one by one
//!                              |  |  |
//!  frames of a round ---> worker 0 .. WORKERS - 1, each over the versions that its lookups meet
//! ```
//!
//! - `run_call` takes the words and does what they say over a desk (`RunCall`): with Ok, the outputs took exactly what one run on so
//!   many workers puts there (`RunWrites`, `IsToldRun`); where an input is refused, what one puts there over the frames and segments that
//!   count; after a failed call, want of memory or an input that is too long, fronts of one.
//!
//! Which of the runs it is depends on how lookups and publications meet. With one worker and no version published in a frame's round it
//! is the run of `single`. The threads of a round end with it. The call may wait; no speed, progress or fairness is claimed.
//!
//! ```text
//! let status = run_call(&rt, alloc, &words, &mut desk, &OpenGate);   // run setup capture control egress lines replies 4
//! ```
#![tactic(auto)]

mod run_calls;
mod threaded_rounds;
mod threaded_streams;
mod threaded_words;

pub use run_calls::run_call;
