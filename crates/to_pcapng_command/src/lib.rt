//! The command `to-pcapng CAPTURE MADE`: the frames of a capture as a pcapng file.
//!
//! ```text
//!  CAPTURE --- a piece ---> frames ---> a section header, an interface, a packet for each frame ---> MADE
//! ```
//!
//! What the layer above uses:
//!
//! - `to_pcapng_call` takes the words and does what they say over a desk (`ToPcapngCall`): with Ok, Made took exactly the pcapng
//!   file of the capture's frames, which a reader gets at the same times (`ToWrites`, `IsFileOf`). Where the capture is refused, or
//!   the time of a frame may not be written, Made took the file of the frames before; after File, Long and Memory a front of what is
//!   written for the whole capture.
//! - An input has one answer and one file (`one_file_is_written`), and each has one (`every_input_is_written`).
//!
//! Nothing here says what a real file holds, or that memory is there.
//!
//! ```text
//! let status = to_pcapng_call(alloc, &words, &mut desk);    // to-pcapng capture made
//! ```
#![tactic(auto)]

mod laws;
mod ng_writers;
mod to_pcapng_calls;
mod to_pcapng_words;

pub use laws::{every_input_is_written, one_file_is_written};
pub use to_pcapng_calls::to_pcapng_call;
