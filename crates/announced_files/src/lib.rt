//! The control file by which a peer announces the routes of a text.
//!
//! ```text
//!  [ Connect ][ Bytes: OPEN ][ Bytes: KEEPALIVE ][ Bytes: UPDATE ][ Bytes: UPDATE ] ..
//!                                                  route 0          route 1
//! ```
//!
//! Clauses see the file as its segments (`announced`), and an UPDATE as its value (`announcement`): the attributes ORIGIN, AS_PATH,
//! MP_REACH_NLRI with the one route, EXTENDED COMMUNITIES where it has targets, and SFP where it has a path.
//!
//! What the layer above uses:
//!
//! - `announce_file` writes the file of the routes of a text, which is a control file for any peers with this one; `announced_segments`
//!   gives its segments, and `announcing_segment` and `withdrawing_segment` those of one route at any position.
//! - The session with the peer that hears the file comes up, and then the peer's routes are exactly those of the text
//!   (`announced_routes_are_those_of_the_text`).
//!
//! It does no IO, and gives no moment but 0.
//!
//! ```text
//! let routes = parse_routes(alloc, text)?;
//! let file = announce_file(alloc, &local, 1, 65001, &routes)?;
//! ```
#![tactic(auto)]

mod announcing;
mod attributes;
mod laws;
mod segments;

pub use announcing::announce_file;
pub use laws::announced_routes_are_those_of_the_text;
pub use segments::{announced_segments, announcing_segment, withdrawing_segment};
