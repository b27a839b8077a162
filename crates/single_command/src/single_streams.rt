//! The run on one thread over the bound inputs, from the first look at them to the last write.

ghost use Rattle.sfc_desk.specs.declared.ports.Port.{Port as DeskPort};
ghost use Rattle.sfc_desk.specs.Desks.{Shown};
ghost use Rattle.sfc_config.specs.Parts.{Parts};
ghost use Rattle.worker_run.specs.Runs.{single_says};
ghost use Rattle.file_runs.specs.RunPuts.{OutsBound, OutsOpen, run_means, waits_of};
ghost use Rattle.file_runs.specs.RunSteps.{Along, StreamSays};

use crate::single_runs::{OneThread, run_rounds};
use commands::Status;
use file_runs::{FileRun, RunOutputs, begin_run, status_of_end, status_of_halt};
use sfc_config::Setup;
use sfc_desk::Desk;
use std::alloc::Global;

/// Runs all rounds, and writes what waits.
fn run_all<D: Desk>(desk: &mut D, run: &mut FileRun, outputs: &mut RunOutputs) -> Status
    requires ready { OutsOpen (D.at desk.old) outputs.old }
    requires some { (setup : Parts) × (then : DeskPort → Shown) × Along (run_means (single_says setup) setup) setup D.tells then (D.at desk.old) (waits_of outputs.old) run.old }
    ensures { (setup : Parts) (then : DeskPort → Shown) → Along (run_means (single_says setup) setup) setup D.tells then (D.at desk.old) (waits_of outputs.old) run.old
        → StreamSays (run_means (single_says setup) setup) setup D.tells then (D.at desk.new) result }
{
    let end = match run_rounds(desk, run, outputs) {
        Ok(end) => end,
        Err(halt) => return status_of_halt(halt),
    };
    match outputs.finish(desk) {
        Ok(()) => status_of_end(end),
        Err(halt) => status_of_halt(halt),
    }
}

/// The run on one thread over the bound inputs into the bound outputs.
pub(crate) fn single_stream<D: Desk>(alloc: Global, desk: &mut D, setup: Setup) -> Status
    requires bound { OutsBound D.tells (D.at desk.old) }
    ensures { StreamSays (run_means (single_says setup) setup) setup D.tells (D.at desk.old) (D.at desk.new) result }
{
    let mut run = match begin_run(alloc, desk, setup, 1, &OneThread) {
        Ok(run) => run,
        Err(halt) => return status_of_halt(halt),
    };
    let Ok(mut outputs) = RunOutputs::new(alloc) else {
        return Status::Memory;
    };
    if let Err(halt) = outputs.put_header(desk, run.form) {
        return status_of_halt(halt);
    }
    run_all(desk, &mut run, &mut outputs)
}
