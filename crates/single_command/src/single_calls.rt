ghost use Rattle.std.specs.Prelude.{◌≡◌};
ghost use Rattle.commands.specs.Commands.{Behaves};
ghost use Rattle.file_runs.specs.FileRuns.{run_ports};
ghost use Rattle.file_runs.specs.RunSteps.{files_of};
ghost use Rattle.single_command.specs.SingleCommand.{SingleCall, SingleRuns};

use crate::single_streams::single_stream;
use crate::single_words::single_words;
use commands::{Status, Words};
use control_histories::segments_have_one_log;
use file_runs::{RunWords, open_files};
use setup_inputs::read_setup;
use sfc_desk::Desk;
use std::alloc::Global;
use worker_run::{a_round_says_one_list, a_single_run_is_what_its_rounds_say};

/// What `single` does where its words are said.
fn run_single<D: Desk>(alloc: Global, desk: &mut D, said: &RunWords<'_>) -> Status
    ensures runs { SingleRuns (files_of said.now) D.tells (D.held desk.old) (D.at desk.old) (D.at desk.new) result }
    ensures behaves { Behaves (run_ports (files_of said.now)) D.tells (D.held desk.old) (D.at desk.old) (D.at desk.new) result }
{
    segments_have_one_log();
    a_round_says_one_list();
    a_single_run_is_what_its_rounds_say();
    let setup = match read_setup(alloc, desk, said.setup) {
        Ok(setup) => setup,
        Err(status) => return status,
    };
    if let Err(port) = open_files(desk, said) {
        return Status::File(port);
    }
    single_stream(alloc, desk, setup)
}

/// The command `single SETUP CAPTURE CONTROL EGRESS LINES REPLIES`: the run on one thread.
///
/// Setup is bound and read whole; then Capture, Control, Egress, Lines and Replies are bound, in this order. Both inputs are read in
/// pieces, and a round of each is held at a time. The egress has the form of the capture and in it the frames that go out; there is a
/// line for each frame, and a segment for each event that sent bytes. Where an input is refused, what comes of the rounds that count
/// is written first; where the capture's file header is, nothing is.
pub fn single_call<D: Desk>(alloc: Global, words: &Words, desk: &mut D) -> Status
    ensures { SingleCall words.now D.tells (D.held desk.old) (D.at desk.old) (D.at desk.new) result }
{
    match single_words(words) {
        Some(said) => run_single(alloc, desk, &said),
        None => Status::Words,
    }
}
