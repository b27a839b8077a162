//! A capture and a control file as a stream of rounds, over any desk.
//!
//! ```text
//!   Capture --- pieces ---> CaptureFeed ---> the frame that stands next, lent
//!                                              | take_round: the frames of one round
//!   Control --- pieces ---> ControlFeed ---> the segment that stands next
//! ```
//!
//! Both files are read in pieces. Of each the items of one round are held, and one beyond it: a round ends where the next segment
//! stands, and a fault is told only in its turn.
//!
//! What the layer above uses:
//!
//! - `begin_inputs` looks at the first frame and the first segment of two inputs that are bound (`HoldsAt`, behind nothing).
//! - `take_round` takes the next round of `rounds` off both, into a buffer of the caller's (`FrameBuffer`) and a list, or says how
//!   the run ends (`Takes`). Where the desk tells, that is the next round of whatever a reader of both files gets.
//! - Every two files of bytes are read in exactly one way (`every_two_files_are_read`, `two_files_have_one_reading`).
//! - `form` is the form of the capture, once its file header was accepted.
//!
//! It steps no session and forwards no frame, and writes nothing. Nothing here says what a real file holds, or that memory is there.
//!
//! ```text
//! let mut inputs = begin_inputs(alloc, &mut desk, &setup.peers)?;
//! let end = take_round(&mut desk, &mut inputs, &mut buffer, &mut group)?;    // None: a round
//! ```
#![tactic(auto)]

mod filling;
mod frames_ahead;
mod halts;
mod laws;
mod reading;
mod round_inputs;
mod segments_ahead;
mod taking;

pub use filling::FrameBuffer;
pub use halts::Halt;
pub use laws::{a_run_may_begin, every_two_files_are_read, two_files_have_one_reading};
pub use round_inputs::{RoundInputs, begin_inputs};
pub use taking::take_round;
