ghost use Rattle.std.specs.Prelude.{◌≡◌, ◌≤◌};
ghost use Rattle.commands.specs.Commands.{Behaves};
ghost use Rattle.run_command.specs.RunCommand.{RunCall, ThreadedRuns, threaded_ports};
ghost use Rattle.run_command.specs.ThreadedSteps.{threaded_of};

use crate::threaded_streams::threaded_stream;
use crate::threaded_words::{ThreadedWords, threaded_words};
use commands::{Status, Words};
use control_histories::segments_have_one_log;
use file_runs::open_files;
use forwarder::Gate;
use record_laws::records_of_a_run_tell_their_ways;
use setup_inputs::read_setup;
use sfc_desk::Desk;
use std::alloc::Global;
use std::sync::Wait;
use std::thread::Threads;
use worker_run::a_run_is_what_its_rounds_say;

/// What `run` does where its words are said.
fn run_threaded<R: Threads + Wait + Sync, D: Desk, G: Gate>(
    rt: &R,
    alloc: Global,
    desk: &mut D,
    gate: &G,
    said: &ThreadedWords<'_>,
) -> Status
    requires workers { (1 ≤ said.now.workers) × (said.now.workers ≤ 16) }
    ensures runs { ThreadedRuns (threaded_of said.now) D.tells (D.held desk.old) (D.at desk.old) (D.at desk.new) result }
    ensures behaves { Behaves (threaded_ports (threaded_of said.now)) D.tells (D.held desk.old) (D.at desk.old) (D.at desk.new) result }
{
    segments_have_one_log();
    a_run_is_what_its_rounds_say();
    records_of_a_run_tell_their_ways();
    let files = &said.files;
    let setup = match read_setup(alloc, desk, files.setup) {
        Ok(setup) => setup,
        Err(status) => return status,
    };
    if let Err(port) = open_files(desk, files) {
        return Status::File(port);
    }
    threaded_stream(rt, alloc, desk, gate, setup, said.workers)
}

/// The command `run SETUP CAPTURE CONTROL EGRESS LINES REPLIES WORKERS`: the run on 1 to 16 workers.
///
/// Setup is bound and read whole; then Capture, Control, Egress, Lines and Replies are bound, in this order. Both inputs are read in
/// pieces, and a round of each is held at a time. Workers on threads of their own forward the frames of a round, in consecutive shares,
/// while its versions are published; the gate is told of each lookup and each version. The outputs are those of `single`: the egress
/// in the form of the capture, a line for each frame, and a segment for each event that sent bytes. Where an input is refused, what comes of
/// the rounds that count is written first; where the capture's file header is, nothing is.
pub fn run_call<R: Threads + Wait + Sync, D: Desk, G: Gate>(
    rt: &R,
    alloc: Global,
    words: &Words,
    desk: &mut D,
    gate: &G,
) -> Status
    ensures { RunCall words.now D.tells (D.held desk.old) (D.at desk.old) (D.at desk.new) result }
{
    match threaded_words(words) {
        Some(said) => run_threaded(rt, alloc, desk, gate, &said),
        None => Status::Words,
    }
}
