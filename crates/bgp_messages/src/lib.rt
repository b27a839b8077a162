//! The messages of a BGP stream, in whatever pieces it comes.
//!
//! Clauses see a `BgpFeed` as the bytes that are not used up, the number of those that are, and why it has stopped:
//!
//! ```text
//!  taken:  [ OPEN ][ KEEPALIVE ][ UPDATE ][ FF FF FF ..
//!           given   given        given     rest
//! ```
//!
//! What the layer above uses:
//!
//! - `BgpFeed::push` takes the next piece, and `BgpFeed::next` gives the next message of the stream, in every cutting.
//!   It says "not yet" exactly where the rest is `Held`, and a refusal exactly where it is `Refused`.
//! - `encode_message` writes the one spelling of a message (`IsMessage`).
//! - `Open::peer_as` is the peer's AS, of 4 bytes where the peer has them.
//! - Two readings of the same bytes are one (`one_reading`), every stream has one (`every_stream_is_cut`), and a refusal stands
//!   whatever follows (`a_refusal_stands`).
//!
//! It looks into no UPDATE, keeps no session and no clock, and does no IO.
//!
//! ```text
//! let mut feed = BgpFeed::new(alloc);
//! feed.push(piece)?;
//! while let Some(message) = feed.next()? {
//!     take(message);
//! }
//! ```
#![tactic(auto)]

mod contents;
mod encoders;
mod feeds;
mod headers;
mod items;
mod laws;
mod messages;
mod notices;
mod opens;
mod refusals;

pub use encoders::encode_message;
pub use feeds::{BgpFeed, NextFault};
pub use laws::{a_refusal_stands, every_stream_is_cut, one_reading};
pub use messages::Message;
pub use notices::Notice;
pub use opens::{Capability, Open, Param};
pub use refusals::Refusal;
