//! The packets between forwarders of the frames of a round, as they stand in a capture.
//!
//! Clauses see what a round hands over as a list for each of its frames (`SaysTraces`): the packets of the walk that a run on one thread
//! makes with it, one for each station that is at another forwarder than the one before (`HandsOver`).
//!
//! ```text
//!  batch -- forward, frame by frame --> walks at f0, f0, f1        trace:  head | f0 to f1, header, frame
//! ```
//!
//! What the layer above uses:
//!
//! - `put_traces` forwards the frames of a batch over the table of a runner, in a workspace that keeps packets, and puts these behind
//!   what an `Output` took and what waits there; after a fault what the port took is a front of them.
//! - A frame hands over one list (`a_round_traces_one_list`), so that front is one of what every run puts.
//! - What the rounds of a run hand over is its trace (`IsTrace`, `a_trace_is_what_its_rounds_hand_over`), and there is one (`there_is_one_trace`).
//! - `TraceOf` is the whole trace: a file header of the input's form, which its caller puts, and these packets.
//!
//! A packet is captured up to 262,144 bytes. It takes no memory, and steps no session.
//!
//! ```text
//! runner.single_round(&mut none, &segments)?;          // the round's segments, and no frame
//! put_traces(&mut desk, &mut trace, form, &runner, &mut work, &batch)?;
//! ```
#![tactic(auto)]

mod laws;
mod traces_put;

pub use laws::{
    a_frame_has_one_single_walk, a_round_traces_one_list, a_trace_is_what_its_rounds_hand_over,
    there_is_one_trace,
};
pub use traces_put::put_traces;
