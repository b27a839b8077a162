//! Generated inputs: the setup, the frames and the segments that a seed and a number of frames give.
//!
//! ```text
//!  seed  -- draws -->  frame 0   frame 1 ..  frame 63   frame 64 ..             one draw for each frame
//!                      |                                |
//!  all routes are announced        the firewall's route goes      .. and comes again before frame 128, and so on
//! ```
//!
//! What the layer above uses:
//!
//! - `generated_input` makes them whole, in memory (`IsGenerated`). The frames are TCP over IPv4, of 60 to 1,500 bytes, some of them to a
//!   port that the firewall denies; the segments are those of one peer.
//!
//! It does no IO, and its draws are good for tests alone.
//!
//! ```text
//! let input = generated_input(alloc, 7, 65)?;
//! input.frames.as_slice().len()            // 65
//! ```
#![tactic(auto)]

mod draws;
mod frames;
mod headers;
mod inputs;
mod routes;
mod segments;
mod setups;

pub use inputs::{GeneratedInput, generated_input};
