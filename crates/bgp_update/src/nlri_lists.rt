ghost use Rattle.std.specs.Prelude.{◌≡◌, ◌<◌, ◌+◌, ◌^◌, length, MatchOption, MatchBool, IfOk};
ghost use Rattle.bgp_update.specs.Refusals.{ShortNlri, WrongSize, BadNlri};
ghost use Rattle.bgp_update.specs.Pieces.{SplitsNlri, SplitsRoute};
ghost use Rattle.bgp_update.specs.Steps.{ReadsNlri, ListGives};

use crate::faults::{UpdateFault, malformed};
use crate::routes::Nlri;
use std::alloc::Global;
use wire_base::{Bytes, Fixed, List, OutOfMemory, Spi, be_u16, be_u24};

/// The route types that are read (after RFC 9015, section 3), and the lengths of their bodies.
const SFIR: u16 = 1;

const SFIR_SIZE: usize = 10;

const SFPR: u16 = 2;

const SFPR_SIZE: usize = 11;

/// A route at the front of the bytes, its body unread.
#[derive(Clone, Copy)]
pub(crate) struct RoutePiece<'a> {
    kind: u16,
    body: &'a [u8],
    pub(crate) rest: &'a [u8],
}

/// Cuts the first route off: a type, the length of a body, the body. None exactly where it runs past the end.
fn cut_of(bytes: &[u8]) -> Option<RoutePiece<'_>>
    ensures { MatchOption result (ShortNlri bytes.now) (λ p. SplitsNlri bytes.now p.kind p.body.now p.rest.now) }
{
    if bytes.len() < 4 {
        return None;
    }
    let kind = be_u16(bytes);
    let size = usize::from(be_u16(&bytes[2..]));
    let after = &bytes[4..];
    if after.len() < size {
        return None;
    }
    let (body, rest) = after.split_at(size);
    Some(RoutePiece { kind, body, rest })
}

/// Whether a route of this type may have a body of this length.
fn has_size(kind: u16, size: usize) -> bool
    ensures { MatchBool result (¬ WrongSize kind size) (WrongSize kind size) }
{
    match kind {
        SFIR => size == SFIR_SIZE,
        SFPR => size == SFPR_SIZE,
        _ => true,
    }
}

/// Cuts the first route off. None exactly where it does not stand there whole, with the length of its type.
pub(crate) fn route_piece(bytes: &[u8]) -> Option<RoutePiece<'_>>
    ensures { MatchOption result (BadNlri bytes.now) (λ p. SplitsRoute bytes.now p.kind p.body.now p.rest.now) }
{
    let piece = cut_of(bytes)?;
    if !has_size(piece.kind, piece.body.len()) {
        return None;
    }
    Some(piece)
}

/// A service function instance route from its body.
fn sfir_of(body: &[u8]) -> Nlri
    requires { length body.now ≡ 10 }
    ensures { ReadsNlri 1 body.now result }
{
    let kind = be_u16(&body[8..]);
    Nlri::Sfir {
        rd: Fixed::of(&body[..8]).unwrap(),
        kind,
    }
}

/// A service function path route from its body.
fn sfpr_of(body: &[u8]) -> Nlri
    requires { length body.now ≡ 11 }
    ensures { ReadsNlri 2 body.now result }
{
    let spi = be_u24(&body[8..]);
    Nlri::Sfpr {
        rd: Fixed::of(&body[..8]).unwrap(),
        spi: Spi::of(spi).unwrap(),
    }
}

/// A route from its type and its body.
fn route_of(alloc: Global, kind: u16, body: &[u8]) -> Result<Nlri, OutOfMemory>
    requires right { ¬ WrongSize kind (length body.now) }
    requires small { length body.now < 2 ^ 16 }
    ensures { IfOk result (λ r. ReadsNlri kind body.now r) }
{
    match kind {
        SFIR => Ok(sfir_of(body)),
        SFPR => Ok(sfpr_of(body)),
        _ => Ok(Nlri::Other {
            kind,
            body: Bytes::copy_of(alloc, body)?,
        }),
    }
}

/// The routes that fill the bytes, the first of which stands at the place.
pub(crate) fn read_list(alloc: Global, start: u64, bytes: &[u8]) -> Result<List<Nlri>, UpdateFault>
    requires { start + length bytes.now < 2 ^ 64 }
    ensures { ListGives start bytes.now result }
{
    let mut routes = List::new(alloc);
    let mut rest = bytes;
    while !rest.is_empty() {
        let Some(piece) = route_piece(rest) else {
            let before = (bytes.len() - rest.len()) as u64;
            return Err(malformed(start + before));
        };
        let route = route_of(alloc, piece.kind, piece.body)?;
        routes.push(route)?;
        rest = piece.rest;
    }
    Ok(routes)
}
