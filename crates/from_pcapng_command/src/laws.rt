//! What `from-pcapng` writes, whatever writes it.

ghost use Rattle.std.specs.Prelude.{◌≡◌, ℕ, List, Option};
ghost use Rattle.commands.specs.declared.statuses.Status.{Status};
ghost use Rattle.from_pcapng_command.specs.FromPcapngCommand.{FromWrites};

/// An input has one answer, and one capture is written for it.
pub fn one_capture_is_written()
    ensures { (interface : Option ℕ) (input made other : List ℕ) (answer told : Status) → FromWrites interface input answer made
        → FromWrites interface input told other → (answer ≡ told) × (made ≡ other) }
{}

/// Each input has an answer, and a capture that is written for it.
pub fn every_input_is_written()
    ensures { (interface : Option ℕ) (input : List ℕ) → (answer : Status) × (made : List ℕ) × FromWrites interface input answer made }
{}
