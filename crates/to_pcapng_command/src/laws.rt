//! What `to-pcapng` writes, whatever writes it.

ghost use Rattle.std.specs.Prelude.{◌≡◌, ℕ, List};
ghost use Rattle.wire_base.specs.Numbers.{AreBytes};
ghost use Rattle.commands.specs.declared.statuses.Status.{Status};
ghost use Rattle.to_pcapng_command.specs.ToPcapngCommand.{ToWrites};

/// An input has one answer, and one file is written for it.
pub fn one_file_is_written()
    ensures { (input made other : List ℕ) (answer told : Status) → ToWrites input answer made → ToWrites input told other
        → (answer ≡ told) × (made ≡ other) }
{}

/// Each input has an answer, and a file that is written for it.
pub fn every_input_is_written()
    ensures { (input : List ℕ) → AreBytes input → (answer : Status) × (made : List ℕ) × ToWrites input answer made }
{}
