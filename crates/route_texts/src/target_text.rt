//! Route targets, joined by commas.

ghost use Rattle.std.specs.Prelude.{ℕ, List as Sequence, ◌≡◌, ◌≤◌, ◌↔◌, ◌∷◌, [], IsTrue, length, slice_index, MatchOption};
ghost use Rattle.text_words.specs.Pieces.{pieces_of};
ghost use Rattle.route_texts.specs.RouteLines.{Each, SpellsTarget, SpellsTargets};
ghost use Rattle.route_texts.specs.Steps.{Found};

use std::alloc::Global;
use text_words::{Pieces, read_octets};
use wire_base::{Fixed, List, OutOfMemory};

/// Whether 8 bytes are those of a route target (RFC 4360, section 4).
fn is_route_target(octets: &[u8]) -> bool
    requires { length octets.now ≡ 8 }
    ensures { IsTrue result ↔ ((slice_index octets.now 0 ≤ 2) × (slice_index octets.now 1 ≡ 2)) }
{
    octets[0] <= 2 && octets[1] == 2
}

/// A route target.
pub(crate) fn read_target(word: &[u8]) -> Option<Fixed<8>>
    ensures { MatchOption result ((t : Sequence ℕ) → SpellsTarget word.now t → ⊥) (λ t. SpellsTarget word.now t) }
{
    let Some(target) = read_octets::<8>(word) else {
        return None;
    };
    if !is_route_target(target.bytes()) {
        return None;
    }
    Some(target)
}

/// Route targets joined by commas, at least one.
fn read_some_targets(alloc: Global, word: &[u8]) -> Result<Option<List<Fixed<8>>>, OutOfMemory>
    ensures { Found (λ w targets. Each SpellsTarget (pieces_of 44 w) targets) word.now result }
{
    let mut targets = List::new(alloc);
    let mut pieces = Pieces::of(word, b',');
    'pieces: while let Some(piece) = pieces.next() {
        let Some(target) = read_target(piece) else {
            return Ok(None);
        };
        targets.push(target)?;
    }
    Ok(Some(targets))
}

/// Whether a word is a dash.
fn is_dash(word: &[u8]) -> bool
    ensures { IsTrue result ↔ (word.now ≡ 45 ∷ []) }
{
    matches!(word, [b'-'])
}

/// Route targets joined by commas, or a dash for none.
pub(crate) fn read_targets(
    alloc: Global,
    word: &[u8],
) -> Result<Option<List<Fixed<8>>>, OutOfMemory>
    ensures { Found SpellsTargets word.now result }
{
    if is_dash(word) {
        return Ok(Some(List::new(alloc)));
    }
    read_some_targets(alloc, word)
}
