//! The rounds of a run on one thread.

ghost use Rattle.std.specs.Prelude.{◌≡◌, ◌+◌, ◌<◌, ◌≤◌, ◌^◌, ℕ, List as Sequence, None, IfOk, IfErr, OnOk, IfSome};
ghost use Rattle.sfc_desk.specs.declared.ports.Port.{Port as DeskPort};
ghost use Rattle.sfc_desk.specs.Desks.{Shown};
ghost use Rattle.control_files.specs.declared.segments.Segment.{Segment as Given};
ghost use Rattle.session_machine.specs.Groups.{Entry};
ghost use Rattle.session_machine.specs.Peers.{AllHold};
ghost use Rattle.sfc_config.specs.Parts.{Parts};
ghost use Rattle.control_histories.specs.Logs.{AreOfPeers};
ghost use Rattle.round_inputs.specs.Halts.{Counts};
ghost use Rattle.round_inputs.specs.Taking.{taken_by};
ghost use Rattle.worker_run.specs.Batches.{AreWithinLimits};
ghost use Rattle.worker_run.specs.Controls.{AreShort, HasRoomFor, bytes_in};
ghost use Rattle.worker_run.specs.Runners.{IsSound, Stands};
ghost use Rattle.worker_run.specs.Runs.{single_says};
ghost use Rattle.file_runs.specs.Means.{NeverLong, WritesOutputs};
ghost use Rattle.file_runs.specs.RunPuts.{IsOutput, OutsOpen, PutsRound, run_means, waits_of};
ghost use Rattle.file_runs.specs.RunSteps.{Along, HaltSays, Over, Taken};

use control_files::Segment;
use file_runs::{FileRun, RoundFrames, RunOutputs, RunWord, take_next};
use pcap_io::Form;
use round_inputs::Halt;
use rounds::RunEnd;
use sfc_desk::Desk;
use wire_base::List;
use worker_run::Runner;

/// The means of a run on one thread.
#[derive(Debug, Drop)]
pub struct OneThread;

impl RunWord for OneThread {
    ghost means = { λ setup workers. run_means (single_says setup) setup };
}

/// Runs a round on one thread, and puts what it comes to.
fn run_round<D: Desk>(
    desk: &mut D,
    runner: &mut Runner,
    frames: &mut RoundFrames,
    group: &List<Segment>,
    outputs: &mut RunOutputs,
    form: Option<Form>,
    place: u64,
) -> Result<(), Halt>
    requires sound { IsSound runner.old }
    requires some { (history : Sequence Given) × (log : Sequence Entry) × Stands runner.old history log }
    requires limits { AreWithinLimits frames.old.batch }
    requires peers { AreOfPeers runner.old.setup.peers group.now }
    requires short { AreShort group.now }
    requires room { HasRoomFor runner.old.control group.now }
    requires ready { OutsOpen (D.at desk.old) outputs.old }
    ensures round { (history : Sequence Given) (log : Sequence Entry) → Stands runner.old history log
        → PutsRound (single_says runner.new.setup) D.tells (D.at desk.old) (D.at desk.new) outputs.old outputs.new runner.new form place history log group.now frames.old.batch frames.new.batch result }
    ensures setup { runner.new.setup ≡ runner.old.setup }
    ensures hold { (most : ℕ) → AllHold most runner.old.control.sessions.sessions.items
        → OnOk result (AllHold (most + bytes_in group.now) runner.new.control.sessions.sessions.items) }
    ensures ready { OnOk result (OutsOpen (D.at desk.new) outputs.new) }
    ensures counts { Counts IsOutput (D.at desk.old) (D.at desk.new) result }
    ensures never_long { NeverLong result }
    ensures writes { WritesOutputs IsOutput D.tells (D.held desk.old) (D.held desk.new) (D.at desk.old) (D.at desk.new) }
{
    let replies = match runner.single_round(&mut frames.batch, group) {
        Ok(replies) => replies,
        Err(_) => return Err(Halt::OutOfMemory),
    };
    let setup = runner.setup();
    outputs.put_round(
        desk,
        form,
        &setup.roster,
        place,
        &frames.batch,
        replies.as_slice(),
    )
}

/// Runs the round that was taken, whose first frame has this number.
fn run_taken<D: Desk>(
    desk: &mut D,
    run: &mut FileRun,
    outputs: &mut RunOutputs,
    place: u64,
) -> Result<(), Halt>
    requires ready { OutsOpen (D.at desk.old) outputs.old }
    requires some { (setup : Parts) × (then : DeskPort → Shown) × Taken (run_means (single_says setup) setup) setup D.tells then (D.at desk.old) (waits_of outputs.old) run.old place }
    ensures along { (setup : Parts) (then : DeskPort → Shown) → Taken (run_means (single_says setup) setup) setup D.tells then (D.at desk.old) (waits_of outputs.old) run.old place
        → OnOk result (Along (run_means (single_says setup) setup) setup D.tells then (D.at desk.new) (waits_of outputs.new) run.new) }
    ensures ready { OnOk result (OutsOpen (D.at desk.new) outputs.new) }
    ensures halts { (setup : Parts) (then : DeskPort → Shown) → Taken (run_means (single_says setup) setup) setup D.tells then (D.at desk.old) (waits_of outputs.old) run.old place
        → IfErr result (HaltSays (run_means (single_says setup) setup) setup D.tells then (D.at desk.new)) }
    ensures inputs { run.new.inputs ≡ run.old.inputs }
{
    run_round(
        desk,
        &mut run.runner,
        &mut run.frames,
        &run.group,
        outputs,
        run.form,
        place,
    )
}

/// Takes and runs the next round, or tells how the run ends.
fn next_round<D: Desk>(
    desk: &mut D,
    run: &mut FileRun,
    outputs: &mut RunOutputs,
) -> Result<Option<RunEnd>, Halt>
    requires ready { OutsOpen (D.at desk.old) outputs.old }
    requires some { (setup : Parts) × (then : DeskPort → Shown) × Along (run_means (single_says setup) setup) setup D.tells then (D.at desk.old) (waits_of outputs.old) run.old }
    ensures along { (setup : Parts) (then : DeskPort → Shown) → Along (run_means (single_says setup) setup) setup D.tells then (D.at desk.old) (waits_of outputs.old) run.old
        → IfOk result (λ end. end ≡ None → Along (run_means (single_says setup) setup) setup D.tells then (D.at desk.new) (waits_of outputs.new) run.new) }
    ensures over { (setup : Parts) (then : DeskPort → Shown) → Along (run_means (single_says setup) setup) setup D.tells then (D.at desk.old) (waits_of outputs.old) run.old
        → IfOk result (λ end. IfSome end (Over (run_means (single_says setup) setup) setup D.tells then (D.at desk.new) (waits_of outputs.new) run.new)) }
    ensures ready { IfOk result (λ end. OutsOpen (D.at desk.new) outputs.new) }
    ensures halts { (setup : Parts) (then : DeskPort → Shown) → Along (run_means (single_says setup) setup) setup D.tells then (D.at desk.old) (waits_of outputs.old) run.old
        → IfErr result (HaltSays (run_means (single_says setup) setup) setup D.tells then (D.at desk.new)) }
    ensures rises { IfOk result (λ end. end ≡ None → taken_by run.old.inputs < taken_by run.new.inputs) }
    ensures most { IfOk result (λ end. end ≡ None → taken_by run.new.inputs ≤ 2 ^ 41) }
{
    let place = run.inputs.place();
    match take_next(desk, run, &OneThread) {
        Ok(None) => match run_taken(desk, run, outputs, place) {
            Ok(()) => Ok(None),
            Err(halt) => Err(halt),
        },
        Ok(Some(end)) => Ok(Some(end)),
        Err(halt) => Err(halt),
    }
}

/// Runs all rounds, and tells how the run ends.
pub(crate) fn run_rounds<D: Desk>(
    desk: &mut D,
    run: &mut FileRun,
    outputs: &mut RunOutputs,
) -> Result<RunEnd, Halt>
    requires ready { OutsOpen (D.at desk.old) outputs.old }
    requires some { (setup : Parts) × (then : DeskPort → Shown) × Along (run_means (single_says setup) setup) setup D.tells then (D.at desk.old) (waits_of outputs.old) run.old }
    ensures over { (setup : Parts) (then : DeskPort → Shown) → Along (run_means (single_says setup) setup) setup D.tells then (D.at desk.old) (waits_of outputs.old) run.old
        → IfOk result (Over (run_means (single_says setup) setup) setup D.tells then (D.at desk.new) (waits_of outputs.new) run.new) }
    ensures ready { IfOk result (λ end. OutsOpen (D.at desk.new) outputs.new) }
    ensures halts { (setup : Parts) (then : DeskPort → Shown) → Along (run_means (single_says setup) setup) setup D.tells then (D.at desk.old) (waits_of outputs.old) run.old
        → IfErr result (HaltSays (run_means (single_says setup) setup) setup D.tells then (D.at desk.new)) }
{
    'rounds: loop {
        match next_round(desk, run, outputs) {
            Ok(None) => {}
            Ok(Some(end)) => return Ok(end),
            Err(halt) => return Err(halt),
        }
    }
}
