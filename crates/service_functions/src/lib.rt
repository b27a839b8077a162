//! The service functions that an instance may serve, and what each does with a frame and its header
//! (RFC 7665, sections 4.2 and 4.6).
//!
//! Clauses see a `Function` by its variants (`IsFunction` has the ranges of what it is told), a frame as
//! `Captured` and a header as `Header`. What a function does is four words:
//!
//! ```text
//!  DropBy f frame context why   a reason for which it drops the frame
//!  FrameBy f frame              the frame that it passes, which depends on the frame alone
//!  ContextBy f context          the context behind it
//!  Through functions visits frame   the frame behind the instances that it visited, in order
//! ```
//!
//! What the layer above uses:
//!
//! - `serve` serves a frame and its header (`Serve`): dropped with its reason exactly where the function has
//!   one, and then both are unchanged; else both are what the function leaves.
//! - `serve_frame` serves a frame whose header the function does not see (`ServeFrame`).
//! - `Function::is_on_metadata` tells the functions that read or write the context, which no function
//!   behind a proxy may do.
//! - A frame is served in one way (`one_service`); a function that is not on metadata serves it the same
//!   whatever header it has (`the_header_is_unseen`); what passes is one visit further (`a_pass_is_a_visit`).
//!
//! It does no IO and takes no memory.
//!
//! ```text
//! match serve(&function, &mut frame, &mut nsh) {
//!     Served::Passed => ..,                // the frame and the header are the function's
//!     Served::Dropped(why) => ..,          // both are what they were
//! }
//! ```
#![tactic(auto)]

mod answers;
mod crossing;
mod functions;
mod laws;
mod serving;

pub use answers::{Served, Why};
pub use crossing::types_cross_threads;
pub use functions::Function;
pub use laws::{a_pass_is_a_visit, one_service, the_header_is_unseen};
pub use serving::{serve, serve_frame};
