//! What a run on one thread writes, whatever writes it.

ghost use Rattle.std.specs.Prelude.{◌≡◌, ◌≤◌, List, ℕ};
ghost use Rattle.wire_base.specs.Numbers.{AreBytes};
ghost use Rattle.pcap_io.specs.declared.frames.Captured.{Captured};
ghost use Rattle.control_files.specs.declared.segments.Segment.{Segment};
ghost use Rattle.record_text.specs.declared.records.Record.{Record};
ghost use Rattle.sfc_desk.specs.declared.ports.Port.{Port};
ghost use Rattle.sfc_config.specs.Parts.{Parts, AreParts};
ghost use Rattle.rounds.specs.declared.ends.RunEnd.{RunEnd};
ghost use Rattle.commands.specs.Outputs.{Outputs};
ghost use Rattle.worker_run.specs.Runs.{IsRun, IsSingle};
ghost use Rattle.file_runs.specs.RunTexts.{RunWrites};

use control_histories::{every_list_of_segments_has_a_log, segments_have_one_log};
use round_inputs::every_two_files_are_read;
use run_laws::every_two_inputs_have_a_run;
use worker_run::a_round_says_one_list;

/// A capture and a control file have at most one run on one thread: one end, and one text at each output.
pub fn one_run_is_written()
    ensures { (setup : Parts) (capture control : List ℕ) (end halt : RunEnd) (out other : Outputs) → AreParts setup
        → RunWrites (IsSingle setup) setup capture control end out → RunWrites (IsSingle setup) setup capture control halt other
        → (end ≡ halt) × (out Port.Egress ≡ other Port.Egress) × (out Port.Lines ≡ other Port.Lines) × (out Port.Replies ≡ other Port.Replies) }
{
    segments_have_one_log();
    a_round_says_one_list();
}

/// Every capture and control file have a run on one thread, and one on any number of workers: an end, and a text at each output. Want of
/// memory is free in a call, so `single_call` does not say this.
pub fn every_two_files_have_a_run()
    ensures single { (setup : Parts) (capture control : List ℕ) → AreParts setup → AreBytes capture → AreBytes control
        → (end : RunEnd) × (out : Outputs) × RunWrites (IsSingle setup) setup capture control end out }
    ensures workers { (setup : Parts) (workers : ℕ) (capture control : List ℕ) → AreParts setup → AreBytes capture → AreBytes control → 1 ≤ workers
        → (end : RunEnd) × (out : Outputs)
        × RunWrites (λ (frames : List Captured) (segments : List Segment) (records : List Record). IsRun setup frames segments workers records) setup capture control end out }
{
    every_list_of_segments_has_a_log();
    every_two_files_are_read();
    every_two_inputs_have_a_run();
}
