//! What holds of traces, whatever makes them.

ghost use Rattle.std.specs.Prelude.{◌≡◌, List, [], ◌++◌};
ghost use Rattle.control_files.specs.declared.segments.Segment.{Segment};
ghost use Rattle.pcap_io.specs.declared.frames.Captured.{Captured};
ghost use Rattle.rounds.specs.Rounds.{Round, Rounds};
ghost use Rattle.rounds.specs.Says.{Lines};
ghost use Rattle.sfc_config.specs.Parts.{Parts};
ghost use Rattle.sfc_routes.specs.Entries.{IsRoster};
ghost use Rattle.sfc_routes.specs.declared.route_changes.RouteChange.{RouteChange};
ghost use Rattle.control_histories.specs.Logs.{AreOfPeers};
ghost use Rattle.frame_traces.specs.TraceRuns.{IsTrace, trace_says};
ghost use Rattle.frame_traces.specs.Traces.{OneWalkEach, SaysTraces};

use classifier::a_frame_has_one_verdict;
use control_histories::{changes_have_one_table, segments_have_one_log};
use forwarder::a_frame_has_one_walk;

/// On one thread a frame has one walk behind some changes of routes.
pub fn a_frame_has_one_single_walk()
    ensures { (setup : Parts) (changes : List RouteChange) → IsRoster setup.roster → OneWalkEach setup changes }
{
    a_frame_has_one_verdict();
    a_frame_has_one_walk();
    changes_have_one_table();
    segments_have_one_log();
}

/// On one thread a round of segments of the setup's peers hands over at most one list for each of its frames.
pub fn a_round_traces_one_list()
    ensures { (setup : Parts) (history segments : List Segment) (frames : List Captured) (here there : List (List Captured)) → IsRoster setup.roster
        → AreOfPeers setup.peers (history ++ segments) → SaysTraces setup history segments frames here → SaysTraces setup history segments frames there → here ≡ there }
{
    a_frame_has_one_single_walk();
    segments_have_one_log();
}

/// What rounds hand over, one behind the other, is the trace of a run on one thread, and a trace is what its rounds hand over.
pub fn a_trace_is_what_its_rounds_hand_over()
    ensures run { (setup : Parts) (frames : List Captured) (segments : List Segment) (rounds : List Round) (traces : List (List Captured)) → AreOfPeers setup.peers segments
        → Rounds 0 frames segments rounds → Lines (trace_says setup) [] rounds traces → IsTrace setup frames segments traces }
    ensures rounds { (setup : Parts) (frames : List Captured) (segments : List Segment) (traces : List (List Captured))
        → IsTrace setup frames segments traces → (rounds : List Round) × Rounds 0 frames segments rounds × Lines (trace_says setup) [] rounds traces }
{
    segments_have_one_log();
}

/// Frames and segments of the setup's peers have at most one trace.
pub fn there_is_one_trace()
    ensures { (setup : Parts) (frames : List Captured) (segments : List Segment) (here there : List (List Captured)) → IsRoster setup.roster
        → AreOfPeers setup.peers segments → IsTrace setup frames segments here → IsTrace setup frames segments there → here ≡ there }
{
    a_frame_has_one_single_walk();
    segments_have_one_log();
}
