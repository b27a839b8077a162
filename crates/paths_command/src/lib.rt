//! The command `paths SETUP CONTROL`: every version of the table of service paths that the segments of a control file make.
//!
//! ```text
//!  setup, control file ---> segments ---> sessions ---> changes of routes
//!                                                         | each makes a version
//!  Report:  version 0                                     v
//!           version 1           the table of the routes that stand then, a line for each path
//!           path 42 255=p@f0
//! ```
//!
//! What the layer above uses:
//!
//! - `paths_call` takes the words and does what they say over a desk (`PathsCall`): with Ok, Report took exactly the texts of
//!   all versions, from 0 to the last (`Writes`); where the control file is refused, those that the segments before make; after a
//!   failed call, want of memory or a control file that is too long, a front of these.
//! - A control file has one such text (`one_text_is_written`, `every_control_file_has_a_text`), and its n-th table is version n (`tables_are_versions`).
//!
//! The control file is read in pieces, and each version is written as it is made: what is kept is one piece, one segment, the
//! sessions and their routes. Nothing here says what a real file holds, or that memory is there.
//!
//! ```text
//! let status = paths_call(alloc, &words, &mut desk);    // paths setup control
//! ```
#![tactic(auto)]

mod control_streams;
mod laws;
mod paths_calls;
mod paths_words;
mod version_runs;

pub use laws::{every_control_file_has_a_text, one_text_is_written, tables_are_versions};
pub use paths_calls::paths_call;
