//! The forwarder: the walk of a frame along its path, from one forwarder and instance to the next (RFC 7665, section 4;
//! RFC 8300, sections 2.2 and 2.3).
//!
//! Clauses see a walk as its stations, joined by turns, to an end:
//!
//! ```text
//!  frame -- rules --> station -- turn --> station -- turn --> .. -- turn --> end
//!              |       at f0     lookup    at f0     lookup        lookup
//!              |                 (2)                 (2)           (3)         versions 2, 2, 3
//!              +--> no walk: let out as it is, or dropped
//! ```
//!
//! What the layer above uses:
//!
//! - `Workspace::new` takes all memory at once.
//! - `forward` gives the record of a frame's walk over any `Tables`: `IsRecord` says that it is the one walk over the tables of the
//!   versions that its lookups named (`IsWalk`), which do not fall. None comes exactly where a lookup could not be made.
//! - `Workspace::frame` and `original` are the frame that the walk leaves (`frame_after`), and `trace` the packets that it handed from forwarder to
//!   forwarder (`Traces`), where the workspace was made to keep them.
//! - Over given tables a frame has one walk (`a_frame_has_one_walk`), of at most 63 turns and 62 lookups (`a_walk_is_short`); its service
//!   index falls at each instance that passes it (`the_index_falls`), and where its path stays the same, it visits the path's instances in
//!   order (`a_frame_goes_straight`).
//!
//! The header lies as its bytes for the whole walk, and the frame beside it. `forward` takes no memory and waits for nobody; a `Gate`
//! is told of each lookup, for tests that hold a worker.
//!
//! ```text
//! let mut work = Workspace::new(alloc, false)?;
//! let record = forward(&setup, &mut still, &OpenGate, &mut work, frame, 0);
//! let leaves = work.frame();               // where the record's end is an egress or a bypass
//! ```
#![tactic(auto)]

mod crossing;
mod forwarding;
mod frames_in;
mod gates;
mod headers;
mod hops;
mod laws;
mod traces;
mod turns;
mod walking;
mod workspaces;

pub use crossing::types_cross_threads;
pub use forwarding::forward;
pub use frames_in::FrameIn;
pub use gates::{Gate, OpenGate};
pub use laws::{a_frame_goes_straight, a_frame_has_one_walk, a_walk_is_short, the_index_falls};
pub use workspaces::Workspace;
