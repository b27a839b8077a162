//! The run on several workers over the bound inputs, from the first look at them to the last write.

ghost use Rattle.std.specs.Prelude.{◌≤◌, ℕ};
ghost use Rattle.sfc_desk.specs.declared.ports.Port.{Port as DeskPort};
ghost use Rattle.sfc_desk.specs.Desks.{Shown};
ghost use Rattle.sfc_config.specs.Parts.{Parts};
ghost use Rattle.worker_run.specs.Runs.{run_says};
ghost use Rattle.file_runs.specs.RunPuts.{OutsBound, run_means};
ghost use Rattle.file_runs.specs.RunSteps.{StreamSays};
ghost use Rattle.run_command.specs.ThreadedSteps.{AlongOn};

use crate::threaded_rounds::{OnThreads, run_rounds};
use commands::Status;
use file_runs::{FileRun, RunOutputs, begin_run, status_of_end, status_of_halt};
use forwarder::Gate;
use sfc_config::Setup;
use sfc_desk::Desk;
use std::alloc::Global;
use std::sync::Wait;
use std::thread::Threads;

/// Runs all rounds, and writes what waits.
fn run_all<R: Threads + Wait + Sync, D: Desk, G: Gate>(
    rt: &R,
    desk: &mut D,
    gate: &G,
    run: &mut FileRun,
    outputs: &mut RunOutputs,
) -> Status
    requires { (setup : Parts) × (workers : ℕ) × (then : DeskPort → Shown) × AlongOn workers setup D.tells then (D.at desk.old) outputs.old run.old }
    ensures { (setup : Parts) (workers : ℕ) (then : DeskPort → Shown) → AlongOn workers setup D.tells then (D.at desk.old) outputs.old run.old
        → StreamSays (run_means (run_says setup workers) setup) setup D.tells then (D.at desk.new) result }
{
    let end = match run_rounds(rt, desk, gate, run, outputs) {
        Ok(end) => end,
        Err(halt) => return status_of_halt(halt),
    };
    match outputs.finish(desk) {
        Ok(()) => status_of_end(end),
        Err(halt) => status_of_halt(halt),
    }
}

/// The run on so many workers over the bound inputs into the bound outputs.
pub(crate) fn threaded_stream<R: Threads + Wait + Sync, D: Desk, G: Gate>(
    rt: &R,
    alloc: Global,
    desk: &mut D,
    gate: &G,
    setup: Setup,
    workers: u32,
) -> Status
    requires workers { (1 ≤ workers) × (workers ≤ 16) }
    requires bound { OutsBound D.tells (D.at desk.old) }
    ensures { StreamSays (run_means (run_says setup workers) setup) setup D.tells (D.at desk.old) (D.at desk.new) result }
{
    let mut run = match begin_run(alloc, desk, setup, workers, &OnThreads) {
        Ok(run) => run,
        Err(halt) => return status_of_halt(halt),
    };
    let Ok(mut outputs) = RunOutputs::new(alloc) else {
        return Status::Memory;
    };
    if let Err(halt) = outputs.put_header(desk, run.form) {
        return status_of_halt(halt);
    }
    run_all(rt, desk, gate, &mut run, &mut outputs)
}
