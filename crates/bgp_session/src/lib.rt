//! The local side of BGP sessions.
//!
//! Clauses see a `Local` as the record of its fields; `IsLocal` has their ranges.
//!
//! What the layer above uses:
//!
//! - `Local::of` gives the local side, or None where a part is out of its range.
//!
//! It does no IO and takes no memory.
//!
//! ```text
//! let local = Local::of(65000, 0xC000_0201, 90)?;
//! ```
#![tactic(auto)]

mod crossing;
mod local_sides;

pub use crossing::types_cross_threads;
pub use local_sides::Local;
