//! The commands of sfc, over a desk of named inputs and outputs.
//!
//! Clauses see the words as a list of byte lists, and a desk by its meanings: `held`, the bytes under each
//! name, and `at`, what each port shows.
//!
//! ```text
//!   words ["walk", "42", "2", "in", "out"]          held "in" = the bytes of a capture
//!     | sfc_call
//!     v
//!   status Ok                                        (at Egress).written = its file header, and the
//!                                                    frames whose walk ends as egress
//! ```
//!
//! What the layer above uses:
//!
//! - `sfc_call` answers `Status::Words` exactly where the words spell no command (`Spells`), and then no
//!   port is touched. Every other answer has its cause and says what was written and what became of each port
//!   (`Runs`), and what the files ask for (`Wants`) is the answer where the desk tells, no call failed and memory was
//!   there.
//! - `walk_call`, `show_call`, `announce_call`, `paths_call`, `single_call`, `generate_call`, `from_pcapng_call` and `to_pcapng_call` are the
//!   commands by themselves, each from its own crate, and each waits for nobody and returns. `run_call` is the one command that starts
//!   threads: it may wait for them, and so may `sfc_call`, which hands it the runtime and the gate.
//! - `status_line` is the line of a status.
//!
//! Nothing here says what a real file holds, that memory is there, or that a command with threads returns.
//!
//! ```text
//! let mut words = Words::new(alloc);
//! words.push("walk")?;                              // and so on, to "out"
//! let status = sfc_call(&rt, alloc, &words, &mut desk, &OpenGate);
//! let line = status_line(&status);                  // ok
//! ```
#![tactic(auto)]

mod sfc_calls;

pub use announce_command::announce_call;
pub use commands::{
    CaptureReason, ControlReason, NgReason, SetupReason, Status, Words, status_line,
};
pub use forwarder::{Gate, OpenGate};
pub use from_pcapng_command::from_pcapng_call;
pub use generate_command::generate_call;
pub use paths_command::paths_call;
pub use run_command::run_call;
pub use sfc_calls::sfc_call;
pub use show_command::show_call;
pub use single_command::single_call;
pub use to_pcapng_command::to_pcapng_call;
pub use walk_command::walk_call;
