//! The setup that a command stands on, read before anything else of the call.
//!
//! ```text
//!  SETUP --- bound, read to its end, parsed ---> a setup      (HoldsSetup), and the next port is bound
//!                                          \---> the answer   (StopsAtSetup), and no other port was touched
//! ```
//!
//! What the layer above uses:
//!
//! - `read_setup` binds Setup under its word, reads it and parses it. With a setup the call goes on from `Opened` with one port
//!   of its row bound; else it ends with the status that was answered, whatever stands behind Setup in its row (`Behaves`).
//! - A command says of its answers that they come from there or from its own work with the setup (`RunsOnSetup`), and what
//!   its files ask for (`SetupAsks`). From these follow its laws (`proofs/SetupLemmas.antt`): `caused_on_setup` and
//!   `setup_asks_once`, or `wanted_on_setup`; `never_words_on_setup`.
//!
//! A setup has at most 1,048,576 bytes; one byte more is Long, whatever the text says.
//!
//! ```text
//! let setup = match read_setup(alloc, desk, said.setup) {
//!     Ok(setup) => setup,
//!     Err(status) => return status,
//! };
//! ```
#![tactic(auto)]

mod setup_reads;

pub use setup_reads::read_setup;
