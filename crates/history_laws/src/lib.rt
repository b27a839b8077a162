//! Which segments make a history, and that its changes of routes have a table, whatever makes it.
//!
//! ```text
//!  control file ---> segments of the peers, with bytes (IsHistory) ---> log ---> changes of routes
//!                                                                                    |
//!  table  <--- selection <--- the list of the routes that stand after them <---------+
//! ```
//!
//! What the layer above uses:
//!
//! - `a_control_file_is_a_history` says that what is read of a control file is one (`IsHistory`), so that it has a log
//!   (`every_list_of_segments_has_a_log` of `control_histories`).
//! - `every_list_of_changes_has_a_table` gives the table of any changes that a list of routes takes. With `changes_have_one_table`
//!   of `control_histories` there is exactly one.
//!
//! Here is no code: want of memory is free where a table is made, so no call says that there is one.
#![tactic(auto)]

mod laws;

pub use laws::{
    a_control_file_is_a_history, every_list_of_changes_has_a_table,
    every_list_of_changes_has_routes,
};
