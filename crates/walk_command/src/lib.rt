//! The command `walk SPI COUNT CAPTURE EGRESS`: the frames of a capture over a static path, and what comes out.
//!
//! What the layer above uses:
//!
//! - `walk_call` takes the words and does what they say over a desk (`WalkCall`): the capture is read in pieces, and with
//!   Ok and where the capture is refused the egress took what `WalkWrites` says, `egress_of` the whole frames and of what
//!   the ends of their walks (`WalksTo`) leave of them; after a failed call, want of memory or a capture that is too
//!   long, a front of that.
//! - `every_frame_comes_out_or_none` says what the egress then is; `every_input_is_written` and `one_egress` that each
//!   input has one, and `a_front_is_of_the_whole` that what the first frames leave is a front of it.
//!
//! Nothing here says what a real file holds, or that memory is there.
//!
//! ```text
//! let status = walk_call(alloc, &words, &mut desk);    // walk 42 2 in out
//! ```
#![tactic(auto)]

mod laws;
mod walk_calls;
mod walk_streams;
mod walk_words;

pub use laws::{
    a_front_is_of_the_whole, every_frame_comes_out_or_none, every_input_is_written, one_egress,
};
pub use walk_calls::walk_call;
