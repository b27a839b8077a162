//! A run between two rounds, and the next round taken off both files.

ghost use Rattle.std.specs.Prelude.{◌≡◌, ◌<◌, ◌≤◌, ◌^◌, ℕ, None, IfOk, IfErr, IfSome};
ghost use Rattle.sfc_desk.specs.declared.ports.Port.{Port as DeskPort};
ghost use Rattle.sfc_desk.specs.Desks.{Shown};
ghost use Rattle.sfc_config.specs.Parts.{Parts};
ghost use Rattle.commands.specs.Outputs.{Outputs};
ghost use Rattle.round_inputs.specs.Taking.{taken_by};
ghost use Rattle.file_runs.specs.Means.{Means};
ghost use Rattle.file_runs.specs.RunSteps.{Along, HaltSays, Over, Taken};

use crate::round_frames::RoundFrames;
use control_files::Segment;
use pcap_io::Form;
use round_inputs::{Halt, RoundInputs, take_round};
use rounds::RunEnd;
use sfc_desk::Desk;
use wire_base::List;
use worker_run::Runner;

/// What a command says of the rounds of a run, and what it puts of that, by the setup and the number of workers.
pub trait RunWord {
    ghost means: { Parts → ℕ → Means };
}

/// A run between two rounds: the form of the capture, both inputs, the runner, and the frames and the segments of a round.
#[derive(Debug, Drop)]
pub struct FileRun {
    pub form: Option<Form>,
    pub inputs: RoundInputs,
    pub runner: Runner,
    pub frames: RoundFrames,
    pub group: List<Segment>,
}

/// Takes the next round off the inputs, or tells how the run ends.
pub fn take_next<D: Desk, W: RunWord>(
    desk: &mut D,
    run: &mut FileRun,
    _word: &W,
) -> Result<Option<RunEnd>, Halt>
    requires { (setup : Parts) × (workers : ℕ) × (then : DeskPort → Shown) × (waits : Outputs) × Along (W.means setup workers) setup D.tells then (D.at desk.old) waits run.old }
    ensures taken { (setup : Parts) (workers : ℕ) (then : DeskPort → Shown) (waits : Outputs) → Along (W.means setup workers) setup D.tells then (D.at desk.old) waits run.old
        → IfOk result (λ end. end ≡ None → Taken (W.means setup workers) setup D.tells then (D.at desk.new) waits run.new run.old.inputs.place) }
    ensures over { (setup : Parts) (workers : ℕ) (then : DeskPort → Shown) (waits : Outputs) → Along (W.means setup workers) setup D.tells then (D.at desk.old) waits run.old
        → IfOk result (λ end. IfSome end (Over (W.means setup workers) setup D.tells then (D.at desk.new) waits run.new)) }
    ensures halts { (setup : Parts) (workers : ℕ) (then : DeskPort → Shown) (waits : Outputs) → Along (W.means setup workers) setup D.tells then (D.at desk.old) waits run.old
        → IfErr result (HaltSays (W.means setup workers) setup D.tells then (D.at desk.new)) }
    ensures runner { run.new.runner ≡ run.old.runner }
    ensures rises { IfOk result (λ end. end ≡ None → taken_by run.old.inputs < taken_by run.new.inputs) }
    ensures most { IfOk result (λ end. end ≡ None → taken_by run.new.inputs ≤ 2 ^ 41) }
{
    run.frames.batch.clear();
    run.group.clear();
    take_round(desk, &mut run.inputs, &mut run.frames, &mut run.group)
}
