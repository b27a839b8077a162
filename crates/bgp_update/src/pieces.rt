ghost use Rattle.std.specs.Prelude.{◌≡◌, ◌≤◌, ◌<◌, ◌/◌, ◌%◌, ◌==◌, length, slice_index, true, false, MatchOption};
ghost use Rattle.bgp_update.specs.Refusals.{RunsPast, Splits, header_size};

use wire_base::be_u16;

/// An attribute at the front of the bytes, its value unread.
#[derive(Clone, Copy)]
pub struct AttributePiece<'a> {
    /// The flags, as `Attribute` has them.
    pub flags: u8,
    /// The attribute type code.
    pub kind: u8,
    pub value: &'a [u8],
    /// What stands behind it.
    pub rest: &'a [u8],
}

/// Flag 0x10: the length has 2 bytes (RFC 4271, section 4.3).
pub(crate) fn is_long(flags: u8) -> bool
    ensures { result ≡ ((flags / 16) % 2 == 1) }
{
    (flags >> 4) & 1 == 1
}

/// How many bytes stand before the value.
pub(crate) fn header_of(flags: u8) -> u64
    ensures { result ≡ header_size flags }
{
    if is_long(flags) { 4 } else { 3 }
}

fn short_piece(bytes: &[u8]) -> Option<AttributePiece<'_>>
    requires { ((slice_index bytes.now 0 / 16) % 2 == 1) ≡ false }
    ensures { MatchOption result (RunsPast bytes.now) (λ p. Splits bytes.now p.flags p.kind p.value.now p.rest.now) }
{
    if bytes.len() < 3 {
        return None;
    }
    let size = usize::from(bytes[2]);
    let (flags, kind, after) = (bytes[0], bytes[1], &bytes[3..]);
    if after.len() < size {
        return None;
    }
    let (value, rest) = after.split_at(size);
    Some(AttributePiece {
        flags,
        kind,
        value,
        rest,
    })
}

fn long_piece(bytes: &[u8]) -> Option<AttributePiece<'_>>
    requires { ((slice_index bytes.now 0 / 16) % 2 == 1) ≡ true }
    ensures { MatchOption result (RunsPast bytes.now) (λ p. Splits bytes.now p.flags p.kind p.value.now p.rest.now) }
{
    if bytes.len() < 4 {
        return None;
    }
    let size = usize::from(be_u16(&bytes[2..]));
    let (flags, kind, after) = (bytes[0], bytes[1], &bytes[4..]);
    if after.len() < size {
        return None;
    }
    let (value, rest) = after.split_at(size);
    Some(AttributePiece {
        flags,
        kind,
        value,
        rest,
    })
}

/// Cuts the first attribute off: flags, kind, the length of a value, the value. None exactly where it runs past the end, or there
/// is none.
pub fn attribute_at(bytes: &[u8]) -> Option<AttributePiece<'_>>
    ensures { MatchOption result (RunsPast bytes.now) (λ p. Splits bytes.now p.flags p.kind p.value.now p.rest.now) }
{
    if bytes.is_empty() {
        return None;
    }
    if is_long(bytes[0]) {
        long_piece(bytes)
    } else {
        short_piece(bytes)
    }
}
