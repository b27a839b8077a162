//! What a control file comes to: its segments as events of BGP sessions, the log of their effects, the changes of routes, the
//! versions of the table, and the replies.
//!
//! ```text
//!  segments   Connect 1   Bytes 1 ..   Bytes 1 ..   Bytes 2 ..
//!     | happens
//!  log        [OPEN]      [KEEPALIVE]  one change    nothing          effects, by the session of each peer alone
//!     | changes_of                        |
//!  versions   0           0            1             1               the table after the changes so far
//!     | replies_of
//!  replies    OPEN        KEEPALIVE                                   segments of kind 2
//! ```
//!
//! Clauses see the segments so far and the log (`Heard`): an entry for each segment, in order, where each peer's effects are
//! those that the session with this peer gives for its own events. Version n is the table after the first n changes of the log
//! (`IsVersion`), so version 0 is the empty table.
//!
//! What the layer above uses:
//!
//! - `step_segment` steps the session with a segment's peer. The sessions then stand for one segment more (`Hears`), and what
//!   sessions of these peers stand for is the log of the segments (`what_sessions_took_was_heard`).
//! - `append_reply` writes what an event sent as a segment (`reply_to`).
//! - `table_after` makes the table of a list of routes (`TableAfter`).
//! - Segments of the peers have one log, and each list of them has one; changes have one table, and each list of changes that a
//!   list of routes takes has one (`laws`).
//!
//! It keeps no routes and no table, and does no IO.
//!
//! ```text
//! let effects = step_segment(&mut sessions, head, bytes)?;
//! append_reply(&mut replies, head, effects.bytes.as_slice())?;
//! ```
#![tactic(auto)]

mod laws;
mod replies;
mod steps;
mod tables;

pub use laws::{
    a_log_begins_with_that_of_its_front, changes_have_one_table, changes_of_a_log_are_taken,
    every_list_of_segments_has_a_log, no_change_leaves_no_path, segments_have_one_log,
    what_changes_leave_is_a_table, what_sessions_took_was_heard,
};
pub use replies::append_reply;
pub use steps::step_segment;
pub use tables::table_after;
