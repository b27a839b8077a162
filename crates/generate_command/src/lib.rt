//! The command `generate SEED FRAMES`: the run on one thread over generated inputs, and what is counted of it.
//!
//! ```text
//!  seed, number ---> setup, frames, segments, in memory
//!                      |
//!                      v
//!                    rounds ---> runner ---> a record for each frame ---> counts
//!                                                                           |
//!   Report:  frames=65 egress=55 dropped=10 last-version=5                <-+
//! ```
//!
//! What the layer above uses:
//!
//! - `generate_call` takes the words and does what they say over a desk (`GenerateCall`): with Ok, Report took exactly the line of the
//!   counts of the one run on one thread over the inputs from the seed (`Counted`, `IsSingle`); after a failed call a front of it; after
//!   want of memory nothing.
//! - A seed and a number of frames have at most one such line (`one_run_is_counted`).
//!
//! The inputs are in memory, and beside them a round, the sessions with their routes, and one table. Nothing here says that memory is
//! there.
//!
//! ```text
//! let status = generate_call(alloc, &words, &mut desk);    // generate 7 65
//! ```
#![tactic(auto)]

mod counted_runs;
mod generate_calls;
mod generate_words;
mod laws;
mod memory_rounds;
mod summaries;

pub use generate_calls::generate_call;
pub use laws::one_run_is_counted;
pub use summaries::Summary;
