ghost use Rattle.std.specs.Prelude.{◌≤◌, IfOk};
ghost use Rattle.commands.specs.Commands.{Behaves};
ghost use Rattle.generate_command.specs.GenerateCommand.{GenerateCall, GenerateRuns, generate_ports};
ghost use Rattle.generate_command.specs.GenerateSteps.{IsSummaryText, generate_of};

use crate::counted_runs::summary_of;
use crate::generate_words::{GenerateWords, generate_words};
use crate::summaries::print_summary;
use commands::{Status, Words, report};
use sfc_desk::{Desk, Port};
use std::alloc::Global;
use wire_base::{Bytes, OutOfMemory};

/// The line of the run over the inputs from a seed, with so many frames.
fn summary_line(alloc: Global, seed: u64, count: u32) -> Result<Bytes, OutOfMemory>
    requires some { 1 ≤ count }
    requires most { count ≤ 65536 }
    ensures { IfOk result (IsSummaryText seed count) }
{
    let summary = summary_of(alloc, seed, count)?;
    let mut out = Bytes::new(alloc);
    print_summary(&mut out, &summary)?;
    Ok(out)
}

/// What `generate` does where its words are said.
fn run_generate<D: Desk>(alloc: Global, desk: &mut D, said: GenerateWords) -> Status
    requires some { 1 ≤ said.count }
    requires most { said.count ≤ 65536 }
    ensures runs { GenerateRuns (generate_of said) D.tells (D.held desk.old) (D.at desk.old) (D.at desk.new) result }
    ensures behaves { Behaves (generate_ports (generate_of said)) D.tells (D.held desk.old) (D.at desk.old) (D.at desk.new) result }
{
    let Ok(line) = summary_line(alloc, said.seed, said.count) else {
        return Status::Memory;
    };
    match report(desk, line.as_slice()) {
        Ok(()) => Status::Ok,
        Err(_) => Status::File(Port::Report),
    }
}

/// The command `generate SEED FRAMES`: the run on one thread over the inputs from the seed, with 1 to 65,536 frames.
///
/// The inputs are made in memory, and run by the same rounds as those of a capture and a control file. No port is bound; Report gets one
/// line, `frames=N egress=M dropped=K last-version=V`.
pub fn generate_call<D: Desk>(alloc: Global, words: &Words, desk: &mut D) -> Status
    ensures { GenerateCall words.now D.tells (D.held desk.old) (D.at desk.old) (D.at desk.new) result }
{
    match generate_words(words) {
        Some(said) => run_generate(alloc, desk, said),
        None => Status::Words,
    }
}
