//! What holds of runs, on one thread and on many.

ghost use Rattle.std.specs.Prelude.{◌≡◌, ℕ, ◌≤◌, List, [], ◌++◌};
ghost use Rattle.control_files.specs.declared.segments.Segment.{Segment};
ghost use Rattle.pcap_io.specs.declared.frames.Captured.{Captured};
ghost use Rattle.record_text.specs.declared.records.Record.{Record};
ghost use Rattle.rounds.specs.Rounds.{Round, Rounds};
ghost use Rattle.rounds.specs.Says.{Lines};
ghost use Rattle.sfc_config.specs.Parts.{Parts};
ghost use Rattle.sfc_routes.specs.Entries.{IsRoster};
ghost use Rattle.control_histories.specs.Logs.{AreOfPeers};
ghost use Rattle.worker_run.specs.Rounds.{SaysSingle};
ghost use Rattle.worker_run.specs.Runs.{IsRun, IsSingle, SaysRun, run_says, single_says};

use crate::laws::a_round_says_one_list;
use control_histories::segments_have_one_log;

/// What rounds on so many workers say, one behind the other, is a run, and a run is what its rounds say.
pub fn a_run_is_what_its_rounds_say()
    ensures run { (setup : Parts) (workers : ℕ) (frames : List Captured) (segments : List Segment) (rounds : List Round) (records : List Record) → AreOfPeers setup.peers segments
        → Rounds 0 frames segments rounds → Lines (run_says setup workers) [] rounds records → IsRun setup frames segments workers records }
    ensures rounds { (setup : Parts) (workers : ℕ) (frames : List Captured) (segments : List Segment) (records : List Record)
        → IsRun setup frames segments workers records → (rounds : List Round) × Rounds 0 frames segments rounds × Lines (run_says setup workers) [] rounds records }
{
    segments_have_one_log();
}

/// So it is on one thread.
pub fn a_single_run_is_what_its_rounds_say()
    ensures run { (setup : Parts) (frames : List Captured) (segments : List Segment) (rounds : List Round) (records : List Record) → AreOfPeers setup.peers segments
        → Rounds 0 frames segments rounds → Lines (single_says setup) [] rounds records → IsSingle setup frames segments records }
    ensures rounds { (setup : Parts) (frames : List Captured) (segments : List Segment) (records : List Record)
        → IsSingle setup frames segments records → (rounds : List Round) × Rounds 0 frames segments rounds × Lines (single_says setup) [] rounds records }
{
    segments_have_one_log();
}

/// The run on one thread is one on any number of workers; so is each of its rounds.
pub fn a_single_run_is_a_run()
    ensures round { (setup : Parts) (workers : ℕ) (history segments : List Segment) (frames : List Captured) (records : List Record) → 1 ≤ workers
        → SaysSingle setup history segments frames records → SaysRun setup workers history segments frames records }
    ensures run { (setup : Parts) (frames : List Captured) (segments : List Segment) (workers : ℕ) (records : List Record) → 1 ≤ workers
        → IsSingle setup frames segments records → IsRun setup frames segments workers records }
{}

/// There is at most one run on one thread.
pub fn there_is_one_single_run()
    ensures { (setup : Parts) (frames : List Captured) (segments : List Segment) (here there : List Record) → IsRoster setup.roster → AreOfPeers setup.peers segments
        → IsSingle setup frames segments here → IsSingle setup frames segments there → here ≡ there }
{
    a_round_says_one_list();
}
