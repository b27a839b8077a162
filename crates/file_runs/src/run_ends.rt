//! How a run over the bound inputs begins, and the status with which it ends.

ghost use Rattle.std.specs.Prelude.{◌≡◌, ◌≤◌, IfOk, IfErr};
ghost use Rattle.file_runs.specs.FileRuns.{status_of_end as end_status};
ghost use Rattle.file_runs.specs.Means.{AreBound};
ghost use Rattle.file_runs.specs.RunSteps.{Begun, HaltSays, status_of_halt as halt_status};

use crate::round_frames::RoundFrames;
use crate::run_steps::{FileRun, RunWord};
use commands::Status;
use round_inputs::{Halt, begin_inputs};
use rounds::RunEnd;
use sfc_config::Setup;
use sfc_desk::Desk;
use std::alloc::Global;
use wire_base::List;
use worker_run::{Batch, Runner};

/// The status of a run that halts.
pub fn status_of_halt(halt: Halt) -> Status
    ensures { result ≡ halt_status halt }
{
    match halt {
        Halt::File(port) => Status::File(port),
        Halt::Long(port) => Status::Long(port),
        Halt::OutOfMemory => Status::Memory,
    }
}

/// The status of a run that ends so.
pub fn status_of_end(end: RunEnd) -> Status
    ensures { result ≡ end_status end }
{
    match end {
        RunEnd::Whole => Status::Ok,
        RunEnd::Capture(refusal) => Status::Capture(refusal.place, refusal.reason),
        RunEnd::Control(refusal) => Status::Control(refusal.place, refusal.reason),
    }
}

/// Looks at both inputs, and makes a runner before the first segment.
pub fn begin_run<D: Desk, W: RunWord>(
    alloc: Global,
    desk: &mut D,
    setup: Setup,
    workers: u32,
    _word: &W,
) -> Result<FileRun, Halt>
    requires workers { (1 ≤ workers) × (workers ≤ 16) }
    requires bound { AreBound (W.means setup workers) D.tells (D.at desk.old) }
    ensures begun { IfOk result (Begun setup D.tells (D.held desk.old) (D.held desk.new) (D.at desk.old) (D.at desk.new)) }
    ensures workers { IfOk result (λ run. run.runner.workers ≡ workers) }
    ensures still { IfOk result (λ run. AreBound (W.means setup workers) D.tells (D.at desk.new)) }
    ensures halts { IfErr result (HaltSays (W.means setup workers) setup D.tells (D.at desk.old) (D.at desk.new)) }
{
    let inputs = match begin_inputs(alloc, desk, &setup.peers) {
        Ok(inputs) => inputs,
        Err(halt) => return Err(halt),
    };
    let Ok(runner) = Runner::new(alloc, setup, workers) else {
        return Err(Halt::OutOfMemory);
    };
    Ok(FileRun {
        form: inputs.form(),
        inputs,
        runner,
        frames: RoundFrames {
            batch: Batch::new(alloc),
        },
        group: List::new(alloc),
    })
}
