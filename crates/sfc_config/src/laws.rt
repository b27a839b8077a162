//! A text has one reading.

ghost use Rattle.std.specs.Prelude.{◌≡◌, ◌⊎◌, ℕ, List, Result, Ok, Err};
ghost use Rattle.sfc_config.specs.Parts.{Parts};
ghost use Rattle.sfc_config.specs.declared.faults.SetupReason.{SetupReason as Reason};
ghost use Rattle.sfc_config.specs.declared.faults.SetupFault.{SetupFault as Fault};
ghost use Rattle.sfc_config.specs.declared.faults.SetupFault.TheVariants as fault;
ghost use Rattle.sfc_config.specs.Texts.{IsSetup, IsRefused, Parses, HasReading};

use crate::parsing::read_line;
use text_words::TextLines;

/// A text spells at most one setup, is refused at most at one line and for one reason, and never both.
pub fn a_text_has_one_reading()
    ensures setup { (text : List ℕ) (p q : Parts) → IsSetup text p → IsSetup text q → p ≡ q }
    ensures refusal { (text : List ℕ) (m n : ℕ) (r q : Reason) → IsRefused text m r → IsRefused text n q → (m ≡ n) × (r ≡ q) }
    ensures never_both { (text : List ℕ) (p : Parts) (n : ℕ) (r : Reason) → IsSetup text p → IsRefused text n r → ⊥ }
{}

/// What a text spells is what parsing it gives, unless there is no memory; and so is what it is refused for.
pub fn parsing_is_exact()
    ensures setup { (text : List ℕ) (p : Parts) (answer : Result Parts Fault) → IsSetup text p → Parses text answer
        → (answer ≡ Ok p) ⊎ (answer ≡ Err fault.OutOfMemory) }
    ensures refusal { (text : List ℕ) (n : ℕ) (r : Reason) (answer : Result Parts Fault) → IsRefused text n r → Parses text answer
        → (answer ≡ Err (fault.Line n r)) ⊎ (answer ≡ Err fault.OutOfMemory) }
{}

/// Every text spells a setup, or is refused at one line for one reason. Want of memory is free in `parse_setup`, so it
/// does not say this.
///
/// Of each line it is tried what its words say, which takes no memory. Nothing calls this.
pub fn every_text_has_a_reading(text: &[u8])
    ensures { HasReading text.now }
{
    let mut lines = TextLines::of(text);
    'lines: while let Some(line) = lines.next() {
        let _ = read_line(line);
    }
}
