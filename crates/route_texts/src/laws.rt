//! What holds of routes texts, whatever reads or writes them.

ghost use Rattle.std.specs.Prelude.{◌≡◌, ◌⊎◌, ℕ, List as Sequence, Result, Ok, Err};
ghost use Rattle.sfc_routes.specs.declared.routes.Route.{Route as OneRoute};
ghost use Rattle.route_texts.specs.declared.faults.RoutesFault.{RoutesFault as Fault};
ghost use Rattle.route_texts.specs.declared.faults.RoutesFault.TheVariants as fault;
ghost use Rattle.route_texts.specs.RouteTexts.{IsRoutes, IsRefused};
ghost use Rattle.route_texts.specs.Printed.{routes_text};
ghost use Rattle.route_texts.specs.Decisions.{HasReading};
ghost use Rattle.route_texts.specs.Steps.{Parses};

use crate::decisions::decide_line;
use crate::parsing::split_line;

/// A text has at most one list of routes, is refused at most at one line, and never both.
pub fn a_text_has_one_reading()
    ensures routes { (text : Sequence ℕ) (v w : Sequence OneRoute) → IsRoutes text v → IsRoutes text w → v ≡ w }
    ensures never_both { (text : Sequence ℕ) (v : Sequence OneRoute) (n : ℕ) → IsRoutes text v → IsRefused text n → ⊥ }
    ensures refusal { (text : Sequence ℕ) (m n : ℕ) → IsRefused text m → IsRefused text n → m ≡ n }
{}

/// What a text spells is what parsing it gives, unless there is no memory; and so is the line at which it is refused.
pub fn parsing_is_exact()
    ensures routes { (text : Sequence ℕ) (v : Sequence OneRoute) (answer : Result (Sequence OneRoute) Fault) → IsRoutes text v → Parses text answer
        → (answer ≡ Ok v) ⊎ (answer ≡ Err fault.OutOfMemory) }
    ensures refusal { (text : Sequence ℕ) (n : ℕ) (answer : Result (Sequence OneRoute) Fault) → IsRefused text n → Parses text answer
        → (answer ≡ Err (fault.Line n)) ⊎ (answer ≡ Err fault.OutOfMemory) }
{}

/// A text that spells routes is the text that is printed of them, so routes have at most one text.
pub fn a_text_is_printed_again()
    ensures { (text : Sequence ℕ) (v : Sequence OneRoute) → IsRoutes text v → text ≡ routes_text v }
{}

/// Every text spells routes, or is refused at one line. Want of memory is free in `parse_routes`, so it does not say this.
///
/// Of each line it is tried what its words say, which takes no memory. Nothing calls this.
pub fn every_text_has_a_reading(text: &[u8])
    ensures { HasReading text.now }
{
    let mut rest = text;
    'lines: while !rest.is_empty() {
        let Some((line, behind)) = split_line(rest) else {
            return;
        };
        decide_line(line);
        rest = behind;
    }
}
