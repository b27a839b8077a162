//! The rounds of a run on several workers.

ghost use Rattle.std.specs.Prelude.{◌≡◌, ◌+◌, ◌<◌, ◌≤◌, ◌^◌, ℕ, List as Sequence, None, IfOk, IfErr, OnOk, IfSome};
ghost use Rattle.sfc_desk.specs.declared.ports.Port.{Port as DeskPort};
ghost use Rattle.sfc_desk.specs.Desks.{Shown};
ghost use Rattle.control_files.specs.declared.segments.Segment.{Segment as Given};
ghost use Rattle.session_machine.specs.Groups.{Entry};
ghost use Rattle.session_machine.specs.Peers.{AllHold};
ghost use Rattle.sfc_config.specs.Parts.{Parts};
ghost use Rattle.control_histories.specs.Logs.{AreOfPeers};
ghost use Rattle.round_inputs.specs.Halts.{Counts};
ghost use Rattle.round_inputs.specs.Taking.{taken_by};
ghost use Rattle.worker_run.specs.Batches.{AreWithinLimits};
ghost use Rattle.worker_run.specs.Controls.{AreShort, HasRoomFor, bytes_in};
ghost use Rattle.worker_run.specs.Runners.{IsSound, Stands};
ghost use Rattle.worker_run.specs.Runs.{run_says};
ghost use Rattle.file_runs.specs.Means.{NeverLong, WritesOutputs};
ghost use Rattle.file_runs.specs.RunPuts.{IsOutput, OutsOpen, PutsRound, run_means};
ghost use Rattle.file_runs.specs.RunSteps.{HaltSays};
ghost use Rattle.run_command.specs.ThreadedSteps.{AlongOn, OverOn, TakenOn};

use control_files::Segment;
use file_runs::{FileRun, RoundFrames, RunOutputs, RunWord, take_next};
use forwarder::Gate;
use pcap_io::Form;
use round_inputs::Halt;
use rounds::RunEnd;
use sfc_desk::Desk;
use std::sync::Wait;
use std::thread::Threads;
use wire_base::List;
use worker_run::Runner;

/// The means of a run on several workers.
#[derive(Debug, Drop)]
pub(crate) struct OnThreads;

impl RunWord for OnThreads {
    ghost means = { λ setup workers. run_means (run_says setup workers) setup };
}

/// Runs a round on its workers, and puts what it comes to.
fn run_round<R: Threads + Wait + Sync, D: Desk, G: Gate>(
    rt: &R,
    desk: &mut D,
    gate: &G,
    runner: &mut Runner,
    frames: &mut RoundFrames,
    group: &List<Segment>,
    outputs: &mut RunOutputs,
    form: Option<Form>,
    place: u64,
) -> Result<(), Halt>
    requires sound { IsSound runner.old }
    requires workers { (1 ≤ runner.old.workers) × (runner.old.workers ≤ 16) }
    requires some { (history : Sequence Given) × (log : Sequence Entry) × Stands runner.old history log }
    requires limits { AreWithinLimits frames.old.batch }
    requires peers { AreOfPeers runner.old.setup.peers group.now }
    requires short { AreShort group.now }
    requires room { HasRoomFor runner.old.control group.now }
    requires ready { OutsOpen (D.at desk.old) outputs.old }
    ensures round { (history : Sequence Given) (log : Sequence Entry) → Stands runner.old history log
        → PutsRound (run_says runner.new.setup runner.new.workers) D.tells (D.at desk.old) (D.at desk.new) outputs.old outputs.new runner.new form place history log group.now frames.old.batch frames.new.batch result }
    ensures setup { runner.new.setup ≡ runner.old.setup }
    ensures workers { runner.new.workers ≡ runner.old.workers }
    ensures hold { (most : ℕ) → AllHold most runner.old.control.sessions.sessions.items
        → OnOk result (AllHold (most + bytes_in group.now) runner.new.control.sessions.sessions.items) }
    ensures ready { OnOk result (OutsOpen (D.at desk.new) outputs.new) }
    ensures counts { Counts IsOutput (D.at desk.old) (D.at desk.new) result }
    ensures never_long { NeverLong result }
    ensures writes { WritesOutputs IsOutput D.tells (D.held desk.old) (D.held desk.new) (D.at desk.old) (D.at desk.new) }
{
    let replies = match runner.round(rt, gate, &mut frames.batch, group) {
        Ok(replies) => replies,
        Err(_) => return Err(Halt::OutOfMemory),
    };
    let setup = runner.setup();
    outputs.put_round(
        desk,
        form,
        &setup.roster,
        place,
        &frames.batch,
        replies.as_slice(),
    )
}

/// Runs the round that was taken, whose first frame has this number.
fn run_taken<R: Threads + Wait + Sync, D: Desk, G: Gate>(
    rt: &R,
    desk: &mut D,
    gate: &G,
    run: &mut FileRun,
    outputs: &mut RunOutputs,
    place: u64,
) -> Result<(), Halt>
    requires { (setup : Parts) × (workers : ℕ) × (then : DeskPort → Shown) × TakenOn workers setup D.tells then (D.at desk.old) outputs.old run.old place }
    ensures along { (setup : Parts) (workers : ℕ) (then : DeskPort → Shown) → TakenOn workers setup D.tells then (D.at desk.old) outputs.old run.old place
        → OnOk result (AlongOn workers setup D.tells then (D.at desk.new) outputs.new run.new) }
    ensures halts { (setup : Parts) (workers : ℕ) (then : DeskPort → Shown) → TakenOn workers setup D.tells then (D.at desk.old) outputs.old run.old place
        → IfErr result (HaltSays (run_means (run_says setup workers) setup) setup D.tells then (D.at desk.new)) }
    ensures inputs { run.new.inputs ≡ run.old.inputs }
{
    run_round(
        rt,
        desk,
        gate,
        &mut run.runner,
        &mut run.frames,
        &run.group,
        outputs,
        run.form,
        place,
    )
}

/// Takes and runs the next round, or tells how the run ends.
fn next_round<R: Threads + Wait + Sync, D: Desk, G: Gate>(
    rt: &R,
    desk: &mut D,
    gate: &G,
    run: &mut FileRun,
    outputs: &mut RunOutputs,
) -> Result<Option<RunEnd>, Halt>
    requires { (setup : Parts) × (workers : ℕ) × (then : DeskPort → Shown) × AlongOn workers setup D.tells then (D.at desk.old) outputs.old run.old }
    ensures along { (setup : Parts) (workers : ℕ) (then : DeskPort → Shown) → AlongOn workers setup D.tells then (D.at desk.old) outputs.old run.old
        → IfOk result (λ end. end ≡ None → AlongOn workers setup D.tells then (D.at desk.new) outputs.new run.new) }
    ensures over { (setup : Parts) (workers : ℕ) (then : DeskPort → Shown) → AlongOn workers setup D.tells then (D.at desk.old) outputs.old run.old
        → IfOk result (λ end. IfSome end (OverOn workers setup D.tells then (D.at desk.new) outputs.new run.new)) }
    ensures halts { (setup : Parts) (workers : ℕ) (then : DeskPort → Shown) → AlongOn workers setup D.tells then (D.at desk.old) outputs.old run.old
        → IfErr result (HaltSays (run_means (run_says setup workers) setup) setup D.tells then (D.at desk.new)) }
    ensures rises { IfOk result (λ end. end ≡ None → taken_by run.old.inputs < taken_by run.new.inputs) }
    ensures most { IfOk result (λ end. end ≡ None → taken_by run.new.inputs ≤ 2 ^ 41) }
{
    let place = run.inputs.place();
    match take_next(desk, run, &OnThreads) {
        Ok(None) => match run_taken(rt, desk, gate, run, outputs, place) {
            Ok(()) => Ok(None),
            Err(halt) => Err(halt),
        },
        Ok(Some(end)) => Ok(Some(end)),
        Err(halt) => Err(halt),
    }
}

/// Runs all rounds, and tells how the run ends.
pub(crate) fn run_rounds<R: Threads + Wait + Sync, D: Desk, G: Gate>(
    rt: &R,
    desk: &mut D,
    gate: &G,
    run: &mut FileRun,
    outputs: &mut RunOutputs,
) -> Result<RunEnd, Halt>
    requires { (setup : Parts) × (workers : ℕ) × (then : DeskPort → Shown) × AlongOn workers setup D.tells then (D.at desk.old) outputs.old run.old }
    ensures over { (setup : Parts) (workers : ℕ) (then : DeskPort → Shown) → AlongOn workers setup D.tells then (D.at desk.old) outputs.old run.old
        → IfOk result (OverOn workers setup D.tells then (D.at desk.new) outputs.new run.new) }
    ensures halts { (setup : Parts) (workers : ℕ) (then : DeskPort → Shown) → AlongOn workers setup D.tells then (D.at desk.old) outputs.old run.old
        → IfErr result (HaltSays (run_means (run_says setup workers) setup) setup D.tells then (D.at desk.new)) }
{
    'rounds: loop {
        match next_round(rt, desk, gate, run, outputs) {
            Ok(None) => {}
            Ok(Some(end)) => return Ok(end),
            Err(halt) => return Err(halt),
        }
    }
}
