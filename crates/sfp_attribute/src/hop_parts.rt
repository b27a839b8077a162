ghost use Rattle.std.specs.Prelude.{◌≡◌, ◌<◌, ◌+◌, ◌%◌, ◌^◌, ◌++◌, length, IfOk, MatchOption};
ghost use Rattle.sfp_attribute.specs.declared.levels.Level.TheVariants.{InHop};
ghost use Rattle.sfp_attribute.specs.Steps.{Allows, ReadsRds, HopPartGives, HopPartsGive};

use crate::faults::SfpFault;
use crate::levels::{Level, SFT};
use crate::pieces::{Piece, piece_of};
use crate::sfps::HopPart;
use std::alloc::Global;
use wire_base::{Bytes, Fixed, List, OutOfMemory, be_u16};

/// The lowest service function type that a hop may name; those below are reserved here.
const LOWEST_TYPE: u16 = 32;

/// The bytes of a route distinguisher (RD).
const RD: usize = 8;

/// The first RD and what follows. None exactly where there are fewer than 8 bytes.
fn first_of(bytes: &[u8]) -> Option<(Fixed<8>, &[u8])>
    ensures { MatchOption result (length bytes.now < 8) (λ p. (bytes.now ≡ p.0 ++ p.1.now) × (length p.0 ≡ 8)) }
{
    if bytes.len() < RD {
        return None;
    }
    let (first, rest) = bytes.split_at(RD);
    let rd = Fixed::of(first)?;
    Some((rd, rest))
}

/// The RDs that fill the bytes.
fn read_rds(alloc: Global, bytes: &[u8]) -> Result<List<Fixed<8>>, OutOfMemory>
    requires { length bytes.now % 8 ≡ 0 }
    ensures { IfOk result (λ rds. ReadsRds bytes.now rds) }
{
    let mut rds = List::new(alloc);
    let mut rest = bytes;
    while let Some((rd, behind)) = first_of(rest) {
        rds.push(rd)?;
        rest = behind;
    }
    Ok(rds)
}

/// A service function type and its RDs.
fn read_sft(alloc: Global, value: &[u8]) -> Result<HopPart, SfpFault>
    requires right { length value.now % 8 ≡ 2 }
    requires size { length value.now < 2 ^ 16 }
    ensures { HopPartGives 3 value.now result }
{
    let kind = be_u16(value);
    if kind < LOWEST_TYPE {
        return Err(SfpFault::SfType(kind));
    }
    let rds = read_rds(alloc, &value[2..])?;
    Ok(HopPart::Sft { kind, rds })
}

/// A part of a hop that was cut off.
fn read_hop_part(alloc: Global, piece: &Piece<'_>) -> Result<HopPart, SfpFault>
    requires { Allows InHop piece.now.kind piece.now.value.now }
    ensures { HopPartGives piece.now.kind piece.now.value.now result }
{
    match piece.kind {
        SFT => read_sft(alloc, piece.value),
        kind => Ok(HopPart::Other {
            kind,
            body: Bytes::copy_of(alloc, piece.value)?,
        }),
    }
}

/// The parts that fill a hop behind its SI, the first of which stands at the place.
pub(crate) fn read_hop_parts(
    alloc: Global,
    start: u64,
    bytes: &[u8],
) -> Result<List<HopPart>, SfpFault>
    requires { start + length bytes.now < 2 ^ 64 }
    ensures { HopPartsGive start bytes.now result }
{
    let mut parts = List::new(alloc);
    let mut rest = bytes;
    while !rest.is_empty() {
        let place = start + (bytes.len() - rest.len()) as u64;
        let piece = piece_of(Level::InHop, place, rest)?;
        let part = read_hop_part(alloc, &piece)?;
        parts.push(part)?;
        rest = piece.rest;
    }
    Ok(parts)
}
