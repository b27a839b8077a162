//! The walk of a frame over a static path, to its end: turns of one forwarder (RFC 7665, section 4.3; RFC 8300, sections
//! 2.2 and 2.3) whose instances pass every frame.
//!
//! Clauses see a path as its service path identifier (SPI) and its count of functions. How a walk ends is said in the words of
//! every walk (`WalkFrom` of `forwarder`): `WalksTo spi count frame end` has it begin at the path's first station, and each of its
//! lookups see the table of the one path.
//!
//! ```text
//!  frame --> station -- turn --> station -- turn --> .. -- turn --> end
//!            SI 255    lookup    SI 254    lookup         lookup
//!            TTL 63              TTL 62
//! ```
//!
//! What the layer above uses:
//!
//! - `walk_frame` gives the end of one frame's walk, on the 8 bytes of a header that is changed in place.
//! - `sixty_one_functions_spend_the_ttl` says where such walks end, and `a_bare_forwarder_walks_so` that `forward` of `forwarder`
//!   makes them too.
//!
//! No table is built, and a walk takes no memory. Over tables that change, and by functions that do something, `forward` walks.
//!
//! ```text
//! let path = StaticPath { spi, count: 2 };
//! let end = walk_frame(&path, &frame);     // End::Egress
//! ```
#![tactic(auto)]

mod laws;
mod walks;

pub use laws::{a_bare_forwarder_walks_so, sixty_one_functions_spend_the_ttl};
pub use walks::{StaticPath, walk_frame};
