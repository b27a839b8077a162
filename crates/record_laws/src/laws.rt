//! What holds of the records of runs, whatever makes them.

ghost use Rattle.std.specs.Prelude.{ℕ, List};
ghost use Rattle.control_files.specs.declared.segments.Segment.{Segment};
ghost use Rattle.pcap_io.specs.declared.frames.Captured.{Captured};
ghost use Rattle.record_text.specs.declared.records.Record.{Record};
ghost use Rattle.sfc_config.specs.Parts.{AreParts, Parts};
ghost use Rattle.worker_run.specs.Runs.{IsRun};
ghost use Rattle.record_laws.specs.Ways.{IsToldRun};

use control_histories::{changes_have_one_table, what_changes_leave_is_a_table};
use forwarder::{a_frame_goes_straight, a_walk_is_short, the_index_falls};

/// Each record of a run tells the way of its frame: a walk of at most 63 turns over at most 62 versions, along which the service index never
/// rises and falls at every instance that passes the frame. Where the frame's path is the same in every version from the first to the last that the record
/// names, its instances are visited in order, as far as the frame came.
pub fn records_of_a_run_tell_their_ways()
    ensures { (setup : Parts) (workers : ℕ) (frames : List Captured) (segments : List Segment) (records : List Record) → AreParts setup
        → IsRun setup frames segments workers records → IsToldRun setup workers frames segments records }
{
    a_walk_is_short();
    the_index_falls();
    a_frame_goes_straight();
    changes_have_one_table();
    what_changes_leave_is_a_table();
}
