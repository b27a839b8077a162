//! What holds of rounds, whatever makes them.

ghost use Rattle.std.specs.Prelude.{◌≡◌, List, ◌++◌};
ghost use Rattle.control_files.specs.declared.segments.Segment.{Segment};
ghost use Rattle.pcap_io.specs.declared.frames.Captured.{Captured};
ghost use Rattle.record_text.specs.declared.records.Record.{Record};
ghost use Rattle.sfc_config.specs.Parts.{Parts};
ghost use Rattle.sfc_routes.specs.Entries.{IsRoster};
ghost use Rattle.control_histories.specs.Logs.{AreOfPeers};
ghost use Rattle.worker_run.specs.Rounds.{SaysSingle};

use classifier::a_frame_has_one_verdict;
use control_histories::{changes_have_one_table, segments_have_one_log};
use forwarder::a_frame_has_one_walk;

/// On one thread a round of segments of the setup's peers says at most one list of records.
pub fn a_round_says_one_list()
    ensures { (setup : Parts) (history segments : List Segment) (frames : List Captured) (here there : List Record) → IsRoster setup.roster
        → AreOfPeers setup.peers (history ++ segments) → SaysSingle setup history segments frames here → SaysSingle setup history segments frames there → here ≡ there }
{
    a_frame_has_one_verdict();
    a_frame_has_one_walk();
    changes_have_one_table();
    segments_have_one_log();
}
