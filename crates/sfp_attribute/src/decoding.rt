ghost use Rattle.std.specs.Prelude.{◌≡◌, ℕ, ◌<◌, ◌≤◌, ◌+◌, ◌^◌, length, MatchBool};
ghost use Rattle.sfp_attribute.specs.declared.levels.Level.TheVariants.{Top};
ghost use Rattle.sfp_attribute.specs.Sfps.{si_of};
ghost use Rattle.sfp_attribute.specs.Refusals.{RisesTo, last_of};
ghost use Rattle.sfp_attribute.specs.Steps.{Allows, ReadsPart, PartGives, SfpGives, Exact};

use crate::faults::SfpFault;
use crate::hop_parts::read_hop_parts;
use crate::levels::{ASSOCIATION, HOP, Level};
use crate::pieces::{Piece, piece_of};
use crate::sfps::{Part, Sfp};
use std::alloc::Global;
use wire_base::{Bytes, Fixed, List, Spi, be_u24};

/// An association from its value: a type, an RD, an SPI.
fn read_association(value: &[u8]) -> Part
    requires { length value.now ≡ 12 }
    ensures { (bound : ℕ) → ReadsPart bound 1 value.now result }
{
    let route = &value[1..];
    let spi = be_u24(&route[8..]);
    Part::Association {
        kind: value[0],
        rd: Fixed::of(&route[..8]).unwrap(),
        spi: Spi::of(spi).unwrap(),
    }
}

/// Whether the service index (SI) of a hop is 0, or not below the bound.
fn rises_to(bound: u16, si: u8) -> bool
    ensures { MatchBool result (RisesTo bound si) (¬ RisesTo bound si) }
{
    si == 0 || u16::from(si) >= bound
}

/// A hop that stands at the place, from its value: an SI below the bound, and parts.
fn read_hop(alloc: Global, start: u64, bound: u16, value: &[u8]) -> Result<Part, SfpFault>
    requires some { 1 ≤ length value.now }
    requires size { length value.now < 2 ^ 16 }
    requires place { start + 3 + length value.now < 2 ^ 64 }
    ensures { PartGives start bound 2 value.now result }
{
    let si = value[0];
    if rises_to(bound, si) {
        return Err(SfpFault::Order(si));
    }
    let parts = read_hop_parts(alloc, start + 4, &value[1..])?;
    Ok(Part::Hop { si, parts })
}

/// A part that was cut off at the place, a hop with an SI below the bound.
fn read_part(alloc: Global, start: u64, bound: u16, piece: &Piece<'_>) -> Result<Part, SfpFault>
    requires allowed { Allows Top piece.now.kind piece.now.value.now }
    requires place { start + 3 + length piece.now.value.now < 2 ^ 64 }
    ensures { PartGives start bound piece.now.kind piece.now.value.now result }
{
    match piece.kind {
        ASSOCIATION => Ok(read_association(piece.value)),
        HOP => read_hop(alloc, start, bound, piece.value),
        kind => Ok(Part::Other {
            kind,
            body: Bytes::copy_of(alloc, piece.value)?,
        }),
    }
}

/// What the SI of the next hop has to be below, behind this part.
fn bound_behind(bound: u16, part: &Part) -> u16
    ensures { result ≡ last_of bound (si_of part.now) }
{
    match part {
        Part::Hop { si, .. } => u16::from(*si),
        _ => bound,
    }
}

/// What the SI of the first hop has to be below.
const FIRST_BOUND: u16 = 256;

fn read_sfp(alloc: Global, value: &[u8]) -> Result<Sfp, SfpFault>
    ensures { SfpGives value.now result }
{
    let mut parts = List::new(alloc);
    let mut rest = value;
    let mut bound = FIRST_BOUND;
    while !rest.is_empty() {
        let place = (value.len() - rest.len()) as u64;
        let piece = piece_of(Level::Top, place, rest)?;
        let part = read_part(alloc, place, bound, &piece)?;
        bound = bound_behind(bound, &part);
        parts.push(part)?;
        rest = piece.rest;
    }
    if bound == FIRST_BOUND {
        return Err(SfpFault::NoHop);
    }
    Ok(Sfp { parts })
}

/// Reads the value of an SFP attribute, in this project's profile (after RFC 9015, section 3.2).
///
/// ```text
///  part: kind 1 | length 2 | value
///  kind 1, association: type 1 | RD 8 | SPI 3
///  kind 2, hop: SI 1 | parts        kind 3 in a hop, SFT: service function type 2 | RDs of 8 bytes
/// ```
///
/// What is refused, in this order for one part after the other: fewer than 3 bytes remain (told at the part); an MPLS form
/// (kind 4 or 5); a kind that may not stand there (0, 3 outside of a hop, 1 and 2 in one); a length that does not fit (told
/// at the part); a hop whose SI is 0 or not below that of the hop before; a part inside of it; a service function type below 32. At
/// the end it is refused that there was no hop. Kinds 6 to 255 are kept unread. Places are counted from the value's first byte.
pub fn decode_sfp(alloc: Global, value: &[u8]) -> Result<Sfp, SfpFault>
    ensures reads { SfpGives value.now result }
    ensures exact { Exact value.now result }
{
    read_sfp(alloc, value)
}
