//! What every command of sfc stands on: the words of a command line, the statuses with their lines, ports that are
//! bound in the order of a row, whole inputs read from a desk, and outputs written to one.
//!
//! Clauses see the words as a list of byte lists, a row as the list of its ports with their words (`Place`), and a
//! desk by its meanings: `held`, the bytes under each name, and `at`, what each port shows.
//!
//! ```text
//!   [opens Capture "in", opens Egress "out"]
//!     | open_port, one behind the other
//!     v
//!   each bound once and under its word, up to the first that fails; behind that one all is as it was
//! ```
//!
//! What the layer above uses:
//!
//! - `Words` are the texts of a command line.
//! - `open_port` binds the next port of a row (`Opened`); where it fails, the call may end with File (`StopsAt`).
//! - `read_all` gives all bytes of an input, or says why not; `read_into` reads the next ones into a slice.
//! - `Output` writes in pieces, and `report` to standard output: what was taken after a fault is a front of what
//!   was put (`IsFront`). A failed write is told as such, and after every other answer no count of faults changed.
//!   `fill` and `empty` do the same on a buffer that the caller keeps.
//! - `CommandCall` is what a call of any command says, and follows from four facts of the command
//!   (`proofs/CommandLemmas.antt`).
//! - `status_line` is the line of a status (`line_of`), `Status::number` its number.
//!
//! It knows no command.
//!
//! ```text
//! let mut output = Output::new(alloc, Port::Egress)?;
//! output.put(&mut desk, b"abc")?;
//! output.finish(&mut desk)?;
//! ```
#![tactic(auto)]

mod openings;
mod outputs;
mod reading;
mod reports;
mod statuses;
mod words;
mod writing;

pub use control_files::ControlReason;
pub use openings::open_port;
pub use outputs::Output;
pub use pcap_io::CaptureReason;
pub use pcapng_io::NgReason;
pub use reading::{PIECE, ReadFault, read_all, read_into};
pub use reports::report;
pub use sfc_config::SetupReason;
pub use statuses::{Status, status_line};
pub use words::Words;
pub use writing::{WriteFault, empty, fill, write_all};
