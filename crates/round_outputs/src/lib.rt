//! What a round puts at the outputs: the packets of its frames that go out, and the lines of its records.
//!
//! Clauses see what a batch puts as bytes: `packets_out` of its frames, and `lines_from` of its records.
//!
//! ```text
//!  batch -- put_packets --> egress:  head | bytes, head | bytes, ..      of each frame that goes out, as its walk left it
//!        -- put_lines ----> lines:   7 worker=0 path=42 ..               of each record, numbered from a place on
//! ```
//!
//! What the layer above uses:
//!
//! - `put_packets` and `put_lines` put these bytes behind what an `Output` took and what waits there, as one `Output::put` of them
//!   would: after a fault what the port took is a front of them. `put_packet` does so with one packet (`Puts`).
//! - A packet is lent from the batch, and the lines go through one buffer that the caller keeps, so a frame takes no memory.
//!
//! The file header of the egress is put by its caller.
//!
//! ```text
//! put_packets(&mut desk, &mut egress, form, &batch)?;
//! put_lines(&mut desk, &mut lines, &mut text, &runner.setup().roster, place, &batch)?;
//! ```
#![tactic(auto)]

mod lines_put;
mod packets_put;

pub use lines_put::put_lines;
pub use packets_put::{put_packet, put_packets};
