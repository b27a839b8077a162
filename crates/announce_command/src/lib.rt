//! The command `announce SETUP PEER ROUTES MADE`: the control file by which a peer of a setup announces the routes of a text.
//!
//! ```text
//!  SETUP --- the peer's AS ---\
//!                              >--- the file of the announced routes ---> MADE
//!  ROUTES --- its routes -----/
//! ```
//!
//! What the layer above uses:
//!
//! - `announce_call` takes the words and does what they say over a desk (`AnnounceCall`): with Ok, Made took exactly the control
//!   file of the text's routes (`AnnounceWrites`), which is one for the peers of the setup; after a failed call or want of memory,
//!   a front of that. With Setup, Records and Long it took nothing.
//!
//! The setup is read before any other port is bound, and where it has no such peer, no other is. A routes text has at most
//! 16,777,216 bytes.
//!
//! Nothing here says what a real file holds, or that memory is there.
//!
//! ```text
//! let status = announce_call(alloc, &words, &mut desk);    // announce setup 1 routes made
//! ```
#![tactic(auto)]

mod announce_calls;
mod announce_words;
mod made_files;

pub use announce_calls::announce_call;
