ghost use Rattle.std.specs.Prelude.{◌≤◌, length, MatchOption, IfOk, IfErr};
ghost use Rattle.sfp_attribute.specs.Refusals.{RunsPast, BadLength, RefusedHead, Splits};
ghost use Rattle.sfp_attribute.specs.Steps.{SplitsSized, SplitsPart};

use crate::faults::SfpFault;
use crate::levels::{Level, has_size, is_mpls, is_stray};
use wire_base::be_u16;

/// A part at the front of the bytes, its value unread.
#[derive(Clone, Copy)]
pub(crate) struct Piece<'a> {
    pub(crate) kind: u8,
    pub(crate) value: &'a [u8],
    pub(crate) rest: &'a [u8],
}

/// How many bytes stand before the value: a kind and a length.
const HEAD: usize = 3;

/// Cuts the first part off. None exactly where its value runs past the end.
fn cut_of(bytes: &[u8]) -> Option<Piece<'_>>
    requires { 3 ≤ length bytes.now }
    ensures { MatchOption result (RunsPast bytes.now) (λ p. Splits bytes.now p.kind p.value.now p.rest.now) }
{
    let size = usize::from(be_u16(&bytes[1..]));
    let (kind, after) = (bytes[0], &bytes[HEAD..]);
    if after.len() < size {
        return None;
    }
    let (value, rest) = after.split_at(size);
    Some(Piece { kind, value, rest })
}

/// Cuts the first part off. None exactly where its value runs past the end, or has not a length of its kind.
fn sized_piece(level: Level, bytes: &[u8]) -> Option<Piece<'_>>
    requires { 3 ≤ length bytes.now }
    ensures { MatchOption result (BadLength level bytes.now) (λ p. SplitsSized level bytes.now p.kind p.value.now p.rest.now) }
{
    let piece = cut_of(bytes)?;
    if !has_size(level, piece.kind, piece.value.len()) {
        return None;
    }
    Some(piece)
}

/// Cuts the first part off, which stands at the place `start` of the whole value. What is refused, in this order: fewer
/// than 3 bytes, an MPLS form, a kind that may not stand here, a length that does not fit.
pub(crate) fn piece_of(level: Level, start: u64, bytes: &[u8]) -> Result<Piece<'_>, SfpFault>
    ensures part { IfOk result (λ p. SplitsPart level bytes.now p.kind p.value.now p.rest.now) }
    ensures refused { IfErr result (λ fault. RefusedHead level start bytes.now fault) }
{
    if bytes.len() < HEAD {
        return Err(SfpFault::Short(start));
    }
    let kind = bytes[0];
    if is_mpls(kind) {
        return Err(SfpFault::Mpls(kind));
    }
    if is_stray(level, kind) {
        return Err(SfpFault::Kind(kind));
    }
    match sized_piece(level, bytes) {
        Some(piece) => Ok(piece),
        None => Err(SfpFault::Length(start)),
    }
}
