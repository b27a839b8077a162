//! What holds of a capture and a control file, whatever reads them.

ghost use Rattle.std.specs.Prelude.{◌≡◌, ℕ, List, Option};
ghost use Rattle.wire_base.specs.Numbers.{AreBytes};
ghost use Rattle.pcap_io.specs.declared.forms.Form.{Form};
ghost use Rattle.rounds.specs.Views.{Inputs, IsSound};
ghost use Rattle.round_inputs.specs.Taking.{AreInputs};

/// Every two lists of bytes are read as frames and segments, with the faults behind them.
#[tactic(auto, using(crate::proofs::LawLemmas::some_inputs))]
pub fn every_two_files_are_read()
    ensures { (capture control peers : List ℕ) → AreBytes capture → AreBytes control → (form : Option Form) × (whole : Inputs) × AreInputs capture control form peers whole }
{}

/// They are read in one way.
pub fn two_files_have_one_reading()
    ensures { (capture control peers : List ℕ) (form other : Option Form) (whole others : Inputs)
        → AreInputs capture control form peers whole → AreInputs capture control other peers others → (form ≡ other) × (whole ≡ others) }
{}

/// The positions of the segments do not fall, so a run may begin.
pub fn a_run_may_begin()
    ensures { (capture control peers : List ℕ) (form : Option Form) (whole : Inputs) → AreInputs capture control form peers whole
        → IsSound 0 whole.segments whole.control_fault }
{}
