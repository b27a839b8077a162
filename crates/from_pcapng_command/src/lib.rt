//! The command `from-pcapng SOURCE INTERFACE MADE`: the frames of a pcapng file as a capture.
//!
//! ```text
//!  SOURCE --- a piece ---> frames ---> those of an Ethernet, and of the interface ---> the capture of these ---> MADE
//!                             |
//!                             +--- at the end, frames=N skipped=M ---> standard output
//! ```
//!
//! What the layer above uses:
//!
//! - `from_pcapng_call` takes the words and does what they say over a desk (`FromPcapngCall`): with Ok, Made took exactly the capture
//!   of the chosen frames, and Report the two counts (`FromPcapngWrites`, `IsCaptureOf`). Where the file is refused, Made took the
//!   capture of the chosen frames before, and Report nothing; after File, Long and Memory each a front of what is written for all.
//! - An input has one answer and one capture (`one_capture_is_written`), and each has one (`every_input_is_written`).
//!
//! Nothing here says what a real file holds, or that memory is there.
//!
//! ```text
//! let status = from_pcapng_call(alloc, &words, &mut desk);    // from-pcapng trace.pcapng * made
//! ```
#![tactic(auto)]

mod capture_makers;
mod from_pcapng_calls;
mod from_pcapng_words;
mod laws;

pub use from_pcapng_calls::from_pcapng_call;
pub use laws::{every_input_is_written, one_capture_is_written};
