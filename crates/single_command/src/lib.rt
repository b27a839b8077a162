//! The command `single SETUP CAPTURE CONTROL EGRESS LINES REPLIES`: the run on one thread over a capture and a control file.
//!
//! - `single_call` takes the words and does what they say over a desk (`SingleCall`): with Ok, the outputs took exactly what the one
//!   run on one thread puts there (`RunWrites`, `IsSingle`); where an input is refused, what it puts there over the frames and
//!   segments that count; after a failed call, want of memory or an input that is too long, fronts of this.
//!
//! Both files are read in pieces: what is kept is a round of each and one item beyond, the sessions with their routes, and one table.
//! Nothing here says what a real file holds, or that memory is there.
//!
//! ```text
//! let status = single_call(alloc, &words, &mut desk);    // single setup capture control egress lines replies
//! ```
#![tactic(auto)]

mod single_calls;
mod single_runs;
mod single_streams;
mod single_words;

pub use single_calls::single_call;
