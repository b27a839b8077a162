//! What holds of pcapng files, whatever reads or writes them.

ghost use Rattle.std.specs.Prelude.{◌≡◌, ◌↔◌, ℕ, List, ◌++◌, Option, None, Some, map};
ghost use Rattle.std.specs.List.{AllByRecursion};
ghost use Rattle.pcap_io.specs.declared.forms.Form.{Form};
ghost use Rattle.pcap_io.specs.declared.frames.Captured.{Captured};
ghost use Rattle.pcapng_io.specs.declared.frames.NgFrame.{NgFrame};
ghost use Rattle.pcapng_io.specs.declared.faults.NgRefusal.{NgRefusal};
ghost use Rattle.pcapng_io.specs.declared.sections.Section.{Section};
ghost use Rattle.pcapng_io.specs.Files.{IsNg, IsPart, IsWithin};
ghost use Rattle.pcapng_io.specs.Kept.{Kept};
ghost use Rattle.pcapng_io.specs.Calls.{RefusedAt};
ghost use Rattle.pcapng_io.specs.Streams.{Stands};
ghost use Rattle.pcapng_io.specs.Reads.{Reads};
ghost use Rattle.pcapng_io.specs.Written.{MayBeWritten, as_ng, ng_of};

/// Bytes are a pcapng file of one list of frames at most.
pub fn a_file_has_one_reading()
    ensures { (bytes : List ℕ) (frames others : List NgFrame) → IsNg bytes frames → IsNg bytes others → frames ≡ others }
{}

/// A reader of the same bytes gets one list of frames, and one end.
pub fn one_reading()
    ensures { (bytes : List ℕ) (frames others : List NgFrame) (stop halt : Option NgRefusal)
        → Reads bytes frames stop → Reads bytes others halt → (frames ≡ others) × (stop ≡ halt) }
{}

/// The bytes that are read to their end with no refusal are the pcapng files.
#[tactic(auto, using(crate::proofs::OneReading::ng_read, crate::proofs::OneReading::reads_ng))]
pub fn a_whole_reading_is_a_file()
    ensures { (bytes : List ℕ) (frames : List NgFrame) → Reads bytes frames None ↔ IsNg bytes frames }
{}

/// Every list of bytes has a reading: it is a pcapng file, or behind the blocks that are whole it is refused at one place, or
/// ends short.
#[tactic(auto, using(crate::proofs::TotalReadings::every_reading))]
pub fn every_list_of_bytes_is_read()
    ensures { (bytes : List ℕ) → (frames : List NgFrame) × (stop : Option NgRefusal) × Reads bytes frames stop }
{}

/// The frames of whole blocks at the front of some bytes are the first of those that a reader of all of them gets.
pub fn what_is_given_comes_first()
    ensures { (bytes front rest : List ℕ) (section : Section) (given frames : List NgFrame) (stop : Option NgRefusal) → IsPart front section given
        → bytes ≡ front ++ rest → Reads bytes frames stop → (more : List NgFrame) × (frames ≡ given ++ more) }
{}

/// Where a feed that took some bytes refuses, a reader of these and of whatever comes behind them gets what the feed gave, and this
/// refusal.
pub fn a_refusal_ends_the_reading()
    ensures { (feed : Kept) (taken more : List ℕ) (given : List NgFrame) (r : NgRefusal) → Stands feed taken given → RefusedAt feed r
        → Reads (taken ++ more) given (Some r) }
{}

/// What is told of a frame is within the limits.
pub fn frames_are_within_limits()
    ensures { (bytes : List ℕ) (section : Section) (frames : List NgFrame) → IsPart bytes section frames → AllByRecursion IsWithin frames }
{}

/// What is written for frames that may be written is a file of these frames, at the same times.
pub fn a_written_file_is_read()
    ensures { (form : Form) (frames : List Captured) → AllByRecursion (MayBeWritten form) frames → IsNg (ng_of form frames) (map (as_ng form) frames) }
{}
