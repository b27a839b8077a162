//! A line of a routes text.

ghost use Rattle.std.specs.Prelude.{◌≡◌, ◌≢◌, ◌↔◌, ◌∷◌, ◌≤◌, [], codes, IsTrue, MatchBool};
ghost use Rattle.sfp_attribute.specs.Sfps.{si_of, sis, FallFrom};
ghost use Rattle.sfp_attribute.specs.Refusals.{last_of};
ghost use Rattle.route_texts.specs.RouteLines.{Each, SpellsHop, SpellsSfir, SpellsSfpr, SpellsRoute};
ghost use Rattle.route_texts.specs.Steps.{Found};

use crate::hop_text::read_hop;
use crate::target_text::read_targets;
use bgp_update::Nlri;
use sfc_routes::Route;
use sfp_attribute::{Part, Sfp};
use std::alloc::Global;
use text_words::Pieces;
use wire_base::{Fixed, List, NextHop, OutOfMemory, Spi};

/// The words of an instance route behind the first one.
fn read_sfir(alloc: Global, words: &mut Pieces) -> Result<Option<Route>, OutOfMemory>
    ensures { Found (λ ws r. SpellsSfir (codes "sfir" ∷ ws) r) words.old result }
{
    let Some(rd) = words.next_octets::<8>() else {
        return Ok(None);
    };
    let Some(kind) = words.next_number(0, 65_535) else {
        return Ok(None);
    };
    let Some(address) = words.next_address() else {
        return Ok(None);
    };
    let Some(list) = words.next() else {
        return Ok(None);
    };
    if !words.is_done() {
        return Ok(None);
    }
    match read_targets(alloc, list)? {
        Some(targets) => Ok(Some(Route {
            nlri: Nlri::Sfir {
                rd,
                kind: kind as u16,
            },
            next_hop: address,
            targets,
            path: None,
        })),
        None => Ok(None),
    }
}

/// The hops that the words left spell.
fn read_hops(alloc: Global, words: &mut Pieces) -> Result<Option<List<Part>>, OutOfMemory>
    ensures { Found (λ ws path. Each SpellsHop ws path) words.old result }
{
    let mut hops = List::new(alloc);
    'words: while let Some(word) = words.next() {
        let Some(hop) = read_hop(alloc, word)? else {
            return Ok(None);
        };
        hops.push(hop)?;
    }
    Ok(Some(hops))
}

/// Whether a hop has a service index below the bound.
fn falls(bound: u16, part: &Part) -> bool
    ensures { MatchBool result (FallFrom bound (si_of part.now)) (¬ FallFrom bound (si_of part.now)) }
{
    match part {
        Part::Hop { si, .. } => u16::from(*si) < bound,
        _ => true,
    }
}

/// What the service index of the next hop has to be below.
fn bound_behind(bound: u16, part: &Part) -> u16
    ensures { result ≡ last_of bound (si_of part.now) }
{
    match part {
        Part::Hop { si, .. } => u16::from(*si),
        _ => bound,
    }
}

/// Whether the service indexes of the hops fall strictly.
fn all_fall(path: &[Part]) -> bool
    ensures { MatchBool result (FallFrom 256 (sis path.now)) (¬ FallFrom 256 (sis path.now)) }
{
    let mut bound = 256;
    for part in path {
        if !falls(bound, part) {
            return false;
        }
        bound = bound_behind(bound, part);
    }
    true
}

/// The words of a path route behind the first one.
fn read_sfpr(alloc: Global, words: &mut Pieces) -> Result<Option<Route>, OutOfMemory>
    ensures { Found (λ ws r. SpellsSfpr (codes "sfpr" ∷ ws) r) words.old result }
{
    let Some(rd) = words.next_octets::<8>() else {
        return Ok(None);
    };
    let Some(number) = words.next_number(0, 16_777_215) else {
        return Ok(None);
    };
    let Some(list) = words.next() else {
        return Ok(None);
    };
    if words.is_done() {
        return Ok(None);
    }
    let Some(targets) = read_targets(alloc, list)? else {
        return Ok(None);
    };
    let Some(parts) = read_hops(alloc, words)? else {
        return Ok(None);
    };
    if !all_fall(parts.as_slice()) {
        return Ok(None);
    }
    Ok(Some(Route {
        nlri: Nlri::Sfpr {
            rd,
            spi: Spi::of(number as u32).unwrap(),
        },
        next_hop: NextHop::Four(Fixed::of(&[0, 0, 0, 0]).unwrap()),
        targets,
        path: Some(Sfp { parts }),
    }))
}

/// Whether a word is this text.
pub(crate) fn is_text(word: &[u8], text: &[u8]) -> bool
    ensures { IsTrue result ↔ (word.now ≡ text.now) }
{
    word == text
}

/// The route that a line spells; None exactly where it spells none.
pub(crate) fn read_line(alloc: Global, line: &[u8]) -> Result<Option<Route>, OutOfMemory>
    ensures { Found SpellsRoute line.now result }
{
    let mut words = Pieces::of(line, b' ');
    let Some(word) = words.next() else {
        return Ok(None);
    };
    if is_text(word, b"sfir") {
        return read_sfir(alloc, &mut words);
    }
    if is_text(word, b"sfpr") {
        return read_sfpr(alloc, &mut words);
    }
    Ok(None)
}
