//! BGP sessions as a machine of moments and whole messages (RFC 4271, section 8, in this project's profile).
//!
//! ```text
//!              Connect          OPEN               KEEPALIVE
//!   Idle --------------> OpenSent ---> OpenConfirm ----------> Established
//!    ^    sends OPEN        sends KEEPALIVE                      | UPDATE: a change of routes
//!    +-------- Close, a refusal, the hold timer, Cease ---------+
//! ```
//!
//! Clauses see a `Session` as what it stands for (`Stands`): the list of its events so far and the list of the effects that
//! they had. `Runs` is the machine over such lists. A stay's stream is cut once into messages, and each belongs to the event that
//! holds its last byte (`Brings`), so it doesn't matter in which pieces the bytes come.
//!
//! What the layer above uses:
//!
//! - `Session::step` takes an event and answers what it leads to: bytes for the peer, and changes of its routes.
//! - `Sessions::step` does so for one of several peers; each session stands for the events of its own peer (`StandAll`).
//! - Every change that is given is one that a list of routes takes (`changes`).
//! - `opening_of` is the OPEN that a local side sends.
//! - Over one list of events there is one run (`a_history_has_one_run`), and over every list there is one (`every_history_has_a_run`).
//! - Each peer of the list that `Sessions::new` was given has a session (`peers`), also after each step, and there is room for what
//!   comes as long as the number of bytes is one of 64 bits (`room_is_counted`).
//!
//! Moments are numbers that the caller gives; one that lies before the last counts as no time. After want of memory a session has
//! failed, and every step says so. It reads no clock, picks no route and does no IO.
//!
//! ```text
//! let mut session = Session::new(alloc, local, 1, 65001);
//! let effects = session.step(Event::Connect(0))?;           // the OPEN
//! let effects = session.step(Event::Bytes(10, piece))?;
//! ```
#![tactic(auto)]

mod cores;
mod courses;
mod crossing;
mod events;
mod groups;
mod known_routes;
mod laws;
mod machines;
mod outcomes;
mod readings;
mod sides;
mod spoken;
mod states;
mod tables;
mod timers;

pub use crossing::types_cross_threads;
pub use events::{Effects, Event};
pub use groups::Sessions;
pub use laws::{
    a_history_has_one_run, every_change_is_one_of_routes, every_history_has_a_run, room_is_counted,
};
pub use machines::Session;
pub use spoken::opening_of;
