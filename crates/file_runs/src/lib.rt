//! The run over a capture and a control file, whatever runs its rounds: its words, its ports, its inputs, and what is put at its outputs.
//!
//! ```text
//!  capture, control file ---> rounds ---> runner ---> a record for each frame
//!                                                       |
//!   Egress:   file header, and the frames that go out <-+
//!   Lines:    0 worker=0 path=42 versions=2,2 ..      <-+
//!   Replies:  a segment for each event that sent bytes
//! ```
//!
//! What the layer above uses:
//!
//! - `read_run_words` reads the six names, and `open_files` binds the ports behind the setup, in their order.
//! - `begin_run` looks at both inputs, and `take_next` takes the next round. A command runs each round that was taken on its own threads, puts
//!   it at its outputs, and says by a `RunWord` what may be said of a round and what then stands at the outputs. `RunOutputs` are the three of a
//!   run that says records.
//! - What is written is `RunWrites`, and what each answer of a command says is `FileAnswers`, over the lists of records that may be a
//!   run's: on one thread `IsSingle`, on several workers `IsRun`.
//! - Two files have one run on one thread (`one_run_is_written`), and every two have one (`every_two_files_have_a_run`).
//!
//! Both files are read in pieces: what is kept is a round of each and one item beyond, the sessions with their routes, and one table.
//! Nothing here says what a real file holds, or that memory is there. No function here starts a thread.
//!
//! ```text
//! let mut run = begin_run(alloc, desk, setup, 1, &OneThread)?;
//! let end = take_next(desk, &mut run, &OneThread)?;       // None: a round was taken, into run.frames and run.group
//! status_of_end(end)
//! ```
#![tactic(auto)]

mod laws;
mod round_frames;
mod run_ends;
mod run_openings;
mod run_outputs;
mod run_steps;
mod run_words;

pub use laws::{every_two_files_have_a_run, one_run_is_written};
pub use round_frames::RoundFrames;
pub use run_ends::{begin_run, status_of_end, status_of_halt};
pub use run_openings::open_files;
pub use run_outputs::RunOutputs;
pub use run_steps::{FileRun, RunWord, take_next};
pub use run_words::{RunWords, read_run_words};
