//! What holds of traces, whatever makes them.

ghost use Rattle.std.specs.Prelude.{List, ◌++◌};
ghost use Rattle.std.specs.List.{AllByRecursion};
ghost use Rattle.wire_base.specs.Numbers.{AreBytes};
ghost use Rattle.control_files.specs.declared.segments.Segment.{Segment};
ghost use Rattle.pcap_io.specs.declared.frames.Captured.{Captured};
ghost use Rattle.record_text.specs.declared.records.Record.{Record};
ghost use Rattle.sfc_config.specs.Parts.{AreParts, Parts};
ghost use Rattle.sfc_routes.specs.declared.route_changes.RouteChange.{RouteChange};
ghost use Rattle.history_laws.specs.Histories.{IsHistory};
ghost use Rattle.worker_run.specs.Records.{SingleRecord};
ghost use Rattle.frame_traces.specs.TraceRuns.{IsTrace};
ghost use Rattle.frame_traces.specs.Traces.{SaysTraces, TracesFrame};

use control_histories::{
    changes_of_a_log_are_taken, every_list_of_segments_has_a_log, segments_have_one_log,
};
use history_laws::every_list_of_changes_has_a_table;
use run_laws::every_frame_has_a_walk;

/// Every frame of bytes with a record of a run on one thread hands over a list of packets, which may be empty.
pub fn every_frame_hands_something_over()
    ensures { (setup : Parts) (changes : List RouteChange) (frame : Captured) (r : Record) → AreParts setup → AreBytes frame.bytes → SingleRecord setup changes frame r
        → (handed : List Captured) × TracesFrame setup changes frame handed }
{}

/// Every round of frames of bytes behind a history of segments hands over a list for each of its frames.
pub fn every_round_hands_something_over()
    ensures { (setup : Parts) (history segments : List Segment) (frames : List Captured) → AreParts setup → IsHistory setup.peers (history ++ segments)
        → AllByRecursion (λ (frame : Captured). AreBytes frame.bytes) frames → (traces : List (List Captured)) × SaysTraces setup history segments frames traces }
{
    every_frame_has_a_walk();
    every_list_of_segments_has_a_log();
    changes_of_a_log_are_taken();
    every_list_of_changes_has_a_table();
}

/// All frames of bytes and all segments of a history have a trace.
pub fn every_two_inputs_have_a_trace()
    ensures { (setup : Parts) (frames : List Captured) (segments : List Segment) → AreParts setup → IsHistory setup.peers segments
        → AllByRecursion (λ (frame : Captured). AreBytes frame.bytes) frames → (traces : List (List Captured)) × IsTrace setup frames segments traces }
{
    every_frame_has_a_walk();
    every_list_of_segments_has_a_log();
    changes_of_a_log_are_taken();
    every_list_of_changes_has_a_table();
    segments_have_one_log();
}
