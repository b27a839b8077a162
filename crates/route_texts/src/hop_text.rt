//! The hops of a path: a service index, and types with their RDs.

ghost use Rattle.std.specs.Prelude.{◌≡◌, ◌∷◌, [], MatchOption};
ghost use Rattle.std.specs.Fmt.{decimal};
ghost use Rattle.sfp_attribute.specs.declared.sfps.HopPart.{HopPart as OneType};
ghost use Rattle.sfp_attribute.specs.declared.sfps.Part.{Part as OneHop};
ghost use Rattle.text_words.specs.Numbers.{IsWithin};
ghost use Rattle.route_texts.specs.RouteLines.{Each, SpellsRd, SpellsRds, SpellsSft, SpellsHop};
ghost use Rattle.route_texts.specs.Steps.{Found};
ghost use Rattle.text_words.specs.Pieces.{pieces_of};

use sfp_attribute::{HopPart, Part};
use std::alloc::Global;
use text_words::{Pieces, read_octets};
use wire_base::{Fixed, List, OutOfMemory};

/// RDs joined by commas, at least one.
fn read_some_rds(alloc: Global, word: &[u8]) -> Result<Option<List<Fixed<8>>>, OutOfMemory>
    ensures { Found (λ w rds. Each SpellsRd (pieces_of 44 w) rds) word.now result }
{
    let mut rds = List::new(alloc);
    let mut pieces = Pieces::of(word, b',');
    'pieces: while let Some(piece) = pieces.next() {
        let Some(rd) = read_octets::<8>(piece) else {
            return Ok(None);
        };
        rds.push(rd)?;
    }
    Ok(Some(rds))
}

/// RDs joined by commas, perhaps none.
fn read_rds(alloc: Global, word: &[u8]) -> Result<Option<List<Fixed<8>>>, OutOfMemory>
    ensures { Found SpellsRds word.now result }
{
    if word.is_empty() {
        return Ok(Some(List::new(alloc)));
    }
    read_some_rds(alloc, word)
}

/// The number of a type, and the word of its RDs.
pub(crate) fn sft_parts(word: &[u8]) -> Option<(u64, &[u8])>
    ensures { MatchOption result ((v : OneType) → SpellsSft word.now v → ⊥)
        (λ p. IsWithin 32 65535 p.0 × (pieces_of 58 word.now ≡ decimal p.0 ∷ p.1.now ∷ [])) }
{
    let mut pieces = Pieces::of(word, b':');
    let Some(kind) = pieces.next_number(32, 65_535) else {
        return None;
    };
    let Some(list) = pieces.next() else {
        return None;
    };
    if !pieces.is_done() {
        return None;
    }
    Some((kind, list))
}

/// A service function type, and its RDs.
fn read_sft(alloc: Global, word: &[u8]) -> Result<Option<HopPart>, OutOfMemory>
    ensures { Found SpellsSft word.now result }
{
    let Some((kind, list)) = sft_parts(word) else {
        return Ok(None);
    };
    match read_rds(alloc, list)? {
        Some(rds) => Ok(Some(HopPart::Sft {
            kind: kind as u16,
            rds,
        })),
        None => Ok(None),
    }
}

/// Types with their RDs, joined by semicolons.
fn read_sfts(alloc: Global, word: &[u8]) -> Result<Option<List<HopPart>>, OutOfMemory>
    ensures { Found (λ w sfts. Each SpellsSft (pieces_of 59 w) sfts) word.now result }
{
    let mut sfts = List::new(alloc);
    let mut pieces = Pieces::of(word, b';');
    'pieces: while let Some(piece) = pieces.next() {
        let Some(sft) = read_sft(alloc, piece)? else {
            return Ok(None);
        };
        sfts.push(sft)?;
    }
    Ok(Some(sfts))
}

/// The service index of a hop, and the word of its types.
pub(crate) fn hop_parts(word: &[u8]) -> Option<(u64, &[u8])>
    ensures { MatchOption result ((v : OneHop) → SpellsHop word.now v → ⊥)
        (λ p. IsWithin 1 255 p.0 × (pieces_of 61 word.now ≡ decimal p.0 ∷ p.1.now ∷ [])) }
{
    let mut pieces = Pieces::of(word, b'=');
    let Some(si) = pieces.next_number(1, 255) else {
        return None;
    };
    let Some(list) = pieces.next() else {
        return None;
    };
    if !pieces.is_done() {
        return None;
    }
    Some((si, list))
}

/// A hop: a service index, and types.
pub(crate) fn read_hop(alloc: Global, word: &[u8]) -> Result<Option<Part>, OutOfMemory>
    ensures { Found SpellsHop word.now result }
{
    let Some((si, list)) = hop_parts(word) else {
        return Ok(None);
    };
    match read_sfts(alloc, list)? {
        Some(parts) => Ok(Some(Part::Hop {
            si: si as u8,
            parts,
        })),
        None => Ok(None),
    }
}
