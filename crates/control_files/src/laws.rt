//! What holds of control files, whatever reads or writes them.

ghost use Rattle.std.specs.Prelude.{◌≡◌, ◌↔◌, ℕ, List, [], ◌∷◌, ◌++◌, Option, None, Some};
ghost use Rattle.wire_base.specs.Numbers.{AreBytes};
ghost use Rattle.control_files.specs.declared.segments.Segment.{Segment};
ghost use Rattle.control_files.specs.declared.reasons.Refusal.{Refusal};
ghost use Rattle.control_files.specs.Segments.{IsControl, MayFollow, mark_behind, segment_bytes, start};
ghost use Rattle.control_files.specs.Kept.{Kept};
ghost use Rattle.control_files.specs.Calls.{RefusedAt};
ghost use Rattle.control_files.specs.Streams.{Stands};
ghost use Rattle.control_files.specs.Reads.{ReadsControl};

/// Bytes are a control file of one list of segments at most.
pub fn a_control_file_has_one_reading()
    ensures { (bytes peers : List ℕ) (segments others : List Segment) → IsControl bytes peers segments → IsControl bytes peers others → segments ≡ others }
{}

/// A reader of the same bytes gets one list of segments, and one end.
pub fn one_reading()
    ensures { (bytes peers : List ℕ) (segments others : List Segment) (stop halt : Option Refusal)
        → ReadsControl bytes peers segments stop → ReadsControl bytes peers others halt → (segments ≡ others) × (stop ≡ halt) }
{}

/// The bytes that are read to their end with no refusal are the control files.
#[tactic(auto, using(crate::proofs::OneReading::control_read, crate::proofs::OneReading::reads_control))]
pub fn a_whole_reading_is_a_control_file()
    ensures { (bytes peers : List ℕ) (segments : List Segment) → ReadsControl bytes peers segments None ↔ IsControl bytes peers segments }
{}

/// Every list of bytes has a reading: it is a control file, or behind the segments that are whole it is refused at one place, or
/// ends short.
pub fn every_list_of_bytes_is_read()
    ensures { (bytes peers : List ℕ) → AreBytes bytes → (segments : List Segment) × (stop : Option Refusal) × ReadsControl bytes peers segments stop }
{}

/// The segments at the front of some bytes are the first of those that a reader of all of them gets.
pub fn what_is_given_comes_first()
    ensures { (bytes front rest peers : List ℕ) (given segments : List Segment) (stop : Option Refusal) → IsControl front peers given → bytes ≡ front ++ rest
        → ReadsControl bytes peers segments stop → (more : List Segment) × (segments ≡ given ++ more) }
{}

/// Where a feed that took some bytes refuses, a reader of these and of whatever comes behind them gets what the feed gave, and this
/// refusal.
pub fn a_refusal_ends_the_reading()
    ensures { (feed : Kept) (taken more : List ℕ) (given : List Segment) (r : Refusal) → Stands feed taken given → RefusedAt feed r
        → ReadsControl (taken ++ more) feed.peers given (Some r) }
{}

/// A segment that may follow, written behind a control file, makes one with this segment behind the others; so what is written is
/// read back.
pub fn a_written_segment_is_read()
    ensures { (bytes peers : List ℕ) (segments : List Segment) (segment : Segment) → IsControl bytes peers segments → MayFollow peers (mark_behind start segments) segment
        → IsControl (bytes ++ segment_bytes segment) peers (segments ++ segment ∷ []) }
{}
