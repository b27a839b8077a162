//! That every round says something, and that every two inputs have a run.

ghost use Rattle.std.specs.Prelude.{ℕ, ◌≤◌, List, ◌++◌};
ghost use Rattle.control_files.specs.declared.segments.Segment.{Segment};
ghost use Rattle.pcap_io.specs.declared.frames.Captured.{Captured};
ghost use Rattle.record_text.specs.declared.records.Record.{Record};
ghost use Rattle.sfc_config.specs.Parts.{Parts, AreParts};
ghost use Rattle.worker_run.specs.Rounds.{SaysSingle};
ghost use Rattle.worker_run.specs.Runs.{IsRun, IsSingle, SaysRun};
ghost use Rattle.history_laws.specs.Histories.{IsHistory};

use crate::walks::every_frame_has_a_walk;
use control_histories::{
    changes_of_a_log_are_taken, every_list_of_segments_has_a_log, segments_have_one_log,
};
use history_laws::every_list_of_changes_has_a_table;
use rounds::one_list_of_rounds;
use worker_run::{a_single_run_is_a_run, a_single_run_is_what_its_rounds_say};

/// Every round behind a history of segments of the setup's peers says a list of records: on one thread, and so on any number of
/// workers. Want of memory is free in a round, so `Runner::single_round` does not say this.
pub fn every_round_says_something()
    ensures single { (setup : Parts) (history segments : List Segment) (frames : List Captured) → AreParts setup → IsHistory setup.peers (history ++ segments)
        → (records : List Record) × SaysSingle setup history segments frames records }
    ensures workers { (setup : Parts) (workers : ℕ) (history segments : List Segment) (frames : List Captured) → AreParts setup → IsHistory setup.peers (history ++ segments) → 1 ≤ workers
        → (records : List Record) × SaysRun setup workers history segments frames records }
{
    every_frame_has_a_walk();
    every_list_of_segments_has_a_log();
    changes_of_a_log_are_taken();
    every_list_of_changes_has_a_table();
    a_single_run_is_a_run();
}

/// All frames and all segments of the setup's peers have a run: on one thread, and so on any number of workers.
pub fn every_two_inputs_have_a_run()
    ensures single { (setup : Parts) (frames : List Captured) (segments : List Segment) → AreParts setup → IsHistory setup.peers segments
        → (records : List Record) × IsSingle setup frames segments records }
    ensures workers { (setup : Parts) (workers : ℕ) (frames : List Captured) (segments : List Segment) → AreParts setup → IsHistory setup.peers segments → 1 ≤ workers
        → (records : List Record) × IsRun setup frames segments workers records }
{
    every_round_says_something();
    one_list_of_rounds();
    segments_have_one_log();
    a_single_run_is_what_its_rounds_say();
    a_single_run_is_a_run();
}
