//! The run on one thread over inputs in memory, and what is counted of it.

ghost use Rattle.std.specs.Prelude.{◌≡◌, ◌+◌, ◌≤◌, ℕ, List as Sequence, [], drop, map, IfOk, OnOk};
ghost use Rattle.std.specs.List.{All};
ghost use Rattle.control_files.specs.declared.segments.Segment.{Segment as Given};
ghost use Rattle.pcap_io.specs.Captures.{IsWithinLimits};
ghost use Rattle.session_machine.specs.Groups.{Entry};
ghost use Rattle.session_machine.specs.Peers.{AllHold};
ghost use Rattle.sfc_config.specs.Parts.{Parts};
ghost use Rattle.rounds.specs.Views.{Inputs};
ghost use Rattle.control_histories.specs.Logs.{AreOfPeers};
ghost use Rattle.worker_run.specs.Batches.{AreWithinLimits, pushed};
ghost use Rattle.worker_run.specs.Controls.{AreShort, HasRoomFor, bytes_in};
ghost use Rattle.worker_run.specs.Runners.{Stands};
ghost use Rattle.generate_command.specs.Summaries.{Counted};
ghost use Rattle.generate_command.specs.GenerateSteps.{Along, CountsRound, IsNextSize, IsRoomy};

use crate::memory_rounds::{RoundSize, is_over, next_round, push_frames, push_segments};
use crate::summaries::Summary;
use control_files::Segment;
use generated_inputs::{GeneratedInput, generated_input};
use pcap_io::Captured;
use sfc_config::Setup;
use std::alloc::Global;
use wire_base::{List, OutOfMemory};
use worker_run::{Batch, Runner, a_single_run_is_what_its_rounds_say};

/// A run between two rounds: the runner, the frames and the segments of a round, and the summary so far.
#[derive(Debug, Drop)]
pub(crate) struct CountedRun {
    alloc: Global,
    runner: Runner,
    batch: Batch,
    group: List<Segment>,
    summary: Summary,
}

impl CountedRun {
    /// A run before the first round.
    fn new(alloc: Global, setup: Setup) -> Result<CountedRun, OutOfMemory>
        ensures setup { IfOk result (λ run. run.runner.setup ≡ setup) }
        ensures stands { IfOk result (λ run. Stands run.runner [] []) }
        ensures hold { IfOk result (λ run. AllHold 0 run.runner.control.sessions.sessions.items) }
        ensures summary { IfOk result (λ run. run.summary ≡ record { frames = 0; egress = 0; dropped = 0; last_version = 0 }) }
    {
        Ok(CountedRun {
            alloc,
            runner: Runner::new(alloc, setup, 1)?,
            batch: Batch::new(alloc),
            group: List::new(alloc),
            summary: Summary {
                frames: 0,
                egress: 0,
                dropped: 0,
                last_version: 0,
            },
        })
    }
}

/// Takes the frames and the segments of a round.
fn take_round(
    run: &mut CountedRun,
    frames: &[Captured],
    segments: &[Segment],
) -> Result<(), OutOfMemory>
    requires limits { All IsWithinLimits frames.now }
    ensures frames { OnOk result (run.new.batch ≡ map pushed frames.now) }
    ensures segments { OnOk result (run.new.group ≡ segments.now) }
    ensures runner { run.new.runner ≡ run.old.runner }
    ensures summary { run.new.summary ≡ run.old.summary }
{
    run.batch.clear();
    run.group.clear();
    push_frames(&mut run.batch, frames)?;
    push_segments(run.alloc, &mut run.group, segments)
}

/// Runs the round that was taken, and counts it.
fn run_taken(run: &mut CountedRun) -> Result<(), OutOfMemory>
    requires some { (history : Sequence Given) × (log : Sequence Entry) × Stands run.old.runner history log }
    requires limits { AreWithinLimits run.old.batch }
    requires peers { AreOfPeers run.old.runner.setup.peers run.old.group }
    requires short { AreShort run.old.group }
    requires room { HasRoomFor run.old.runner.control run.old.group }
    requires counted { IsRoomy run.old }
    ensures round { (history : Sequence Given) (log : Sequence Entry) → Stands run.old.runner history log
        → OnOk result (CountsRound history log run.old run.new) }
    ensures setup { run.new.runner.setup ≡ run.old.runner.setup }
    ensures hold { (most : ℕ) → AllHold most run.old.runner.control.sessions.sessions.items
        → OnOk result (AllHold (most + bytes_in run.old.group) run.new.runner.control.sessions.sessions.items) }
{
    run.runner.single_round(&mut run.batch, &run.group)?;
    run.summary.count_round(&run.batch);
    run.summary.last_version = run.runner.version();
    Ok(())
}

/// Takes and runs the next round, where these frames and segments are left.
fn run_next(
    run: &mut CountedRun,
    frames: &[Captured],
    segments: &[Segment],
    round: RoundSize,
) -> Result<(), OutOfMemory>
    requires along { (setup : Parts) × (whole : Inputs) × Along setup whole run.old frames.now segments.now }
    requires next { IsNextSize run.old.summary.frames frames.now segments.now round }
    ensures { (setup : Parts) (whole : Inputs) → Along setup whole run.old frames.now segments.now
        → OnOk result (Along setup whole run.new (drop round.frames frames.now) (drop round.segments segments.now)) }
{
    take_round(run, &frames[..round.frames], &segments[..round.segments])?;
    run_taken(run)
}

/// Runs all rounds.
fn run_rounds(
    run: &mut CountedRun,
    frames: &[Captured],
    segments: &[Segment],
) -> Result<(), OutOfMemory>
    requires { (setup : Parts) × (whole : Inputs) × Along setup whole run.old frames.now segments.now }
    ensures { (setup : Parts) (whole : Inputs) → Along setup whole run.old frames.now segments.now
        → OnOk result (Along setup whole run.new [] []) }
{
    let mut frames_left = frames;
    let mut segments_left = segments;
    'rounds: while !is_over(frames_left, segments_left) {
        let round = next_round(run.summary.frames, frames_left, segments_left);
        run_next(run, frames_left, segments_left, round)?;
        frames_left = frames_left.split_at(round.frames).1;
        segments_left = segments_left.split_at(round.segments).1;
    }
    Ok(())
}

/// The summary of the run over the inputs from a seed, with so many frames.
pub(crate) fn summary_of(alloc: Global, seed: u64, count: u32) -> Result<Summary, OutOfMemory>
    requires some { 1 ≤ count }
    requires most { count ≤ 65536 }
    ensures { IfOk result (Counted seed count) }
{
    a_single_run_is_what_its_rounds_say();
    let GeneratedInput {
        setup,
        frames,
        segments,
    } = generated_input(alloc, seed, count)?;
    let mut run = CountedRun::new(alloc, setup)?;
    run_rounds(&mut run, frames.as_slice(), segments.as_slice())?;
    Ok(run.summary)
}
