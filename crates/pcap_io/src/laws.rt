//! What holds of captures, whatever reads them.

ghost use Rattle.std.specs.Prelude.{◌≡◌, ◌↔◌, ℕ, List, Option, None, Some};
ghost use Rattle.wire_base.specs.Numbers.{AreBytes};
ghost use Rattle.pcap_io.specs.declared.forms.Form.{Form};
ghost use Rattle.pcap_io.specs.declared.frames.Captured.{Captured};
ghost use Rattle.pcap_io.specs.declared.reasons.Refusal.{Refusal};
ghost use Rattle.pcap_io.specs.Captures.{IsCapture};
ghost use Rattle.pcap_io.specs.Reads.{Reads};

/// Bytes are a capture in one form and of one list of frames at most.
pub fn a_capture_has_one_reading()
    ensures { (bytes : List ℕ) (form other : Form) (frames others : List Captured) →
        IsCapture bytes form frames → IsCapture bytes other others → (form ≡ other) × (frames ≡ others) }
{}

/// A reader of the same bytes gets one form, one list of frames, and one end.
#[tactic(auto, using(crate::proofs::OneReading::one_reading))]
pub fn one_reading()
    ensures { (bytes : List ℕ) (form other : Option Form) (frames others : List Captured) (stop halt : Option Refusal)
        → Reads bytes form frames stop → Reads bytes other others halt → (form ≡ other) × (frames ≡ others) × (stop ≡ halt) }
{}

/// The bytes that are read to their end with no refusal are the captures.
#[tactic(auto, using(crate::proofs::OneReading::capture_read, crate::proofs::OneReading::reads_capture))]
pub fn a_whole_reading_is_a_capture()
    ensures { (bytes : List ℕ) (form : Form) (frames : List Captured) → Reads bytes (Some form) frames None ↔ IsCapture bytes form frames }
{}

/// Every list of bytes has a reading: it is a capture, or behind the frames that are whole it is refused at one place, or
/// ends short.
pub fn every_list_of_bytes_is_read()
    ensures { (bytes : List ℕ) → AreBytes bytes → (form : Option Form) × (frames : List Captured) × (stop : Option Refusal) × Reads bytes form frames stop }
{}
