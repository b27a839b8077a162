ghost use Rattle.std.specs.Prelude.{◌≡◌};
ghost use Rattle.commands.specs.Commands.{Behaves};
ghost use Rattle.paths_command.specs.PathsCommand.{PathsCall, PathsRuns, paths_ports};
ghost use Rattle.paths_command.specs.PathsSteps.{paths_of};

use crate::control_streams::paths_stream;
use crate::paths_words::{PathsWords, paths_words};
use commands::{Status, Words, open_port};
use control_histories::{changes_have_one_table, segments_have_one_log};
use setup_inputs::read_setup;
use sfc_desk::{Desk, Port};
use std::alloc::Global;

/// What `paths` does where its words are said.
fn run_paths<D: Desk>(alloc: Global, desk: &mut D, said: &PathsWords<'_>) -> Status
    ensures runs { PathsRuns (paths_of said.now) D.tells (D.held desk.old) (D.at desk.old) (D.at desk.new) result }
    ensures behaves { Behaves (paths_ports (paths_of said.now)) D.tells (D.held desk.old) (D.at desk.old) (D.at desk.new) result }
{
    segments_have_one_log();
    changes_have_one_table();
    let setup = match read_setup(alloc, desk, said.setup) {
        Ok(setup) => setup,
        Err(status) => return status,
    };
    if open_port(desk, Port::Control, said.control).is_err() {
        return Status::File(Port::Control);
    }
    paths_stream(alloc, desk, &setup)
}

/// The command `paths SETUP CONTROL`: every version of the table of service paths, from 0 to the last, as the segments of the
/// control file make them.
///
/// Setup is bound and read whole, then Control is bound and read in pieces. Each version is written to Report as it is made.
/// Where the control file is refused, the versions that the segments before make are written first.
pub fn paths_call<D: Desk>(alloc: Global, words: &Words, desk: &mut D) -> Status
    ensures { PathsCall words.now D.tells (D.held desk.old) (D.at desk.old) (D.at desk.new) result }
{
    match paths_words(words) {
        Some(said) => run_paths(alloc, desk, &said),
        None => Status::Words,
    }
}
