ghost use Rattle.std.specs.Prelude.{◌≡◌, ◌<◌, ◌+◌, ◌^◌, length, MatchBool};
ghost use Rattle.bgp_update.specs.Attributes.{IsReachability};
ghost use Rattle.bgp_update.specs.Updates.{count_of};
ghost use Rattle.bgp_update.specs.Refusals.{Repeats};
ghost use Rattle.bgp_update.specs.Steps.{AttributesGive, UpdateGives, Exact};

use crate::attributes::Attribute;
use crate::bodies::{MP_REACH, MP_UNREACH, read_body};
use crate::faults::{UpdateFault, malformed};
use crate::parts::parts_of;
use crate::pieces::attribute_at;
use crate::updates::Update;
use std::alloc::Global;
use wire_base::{Bytes, List};

/// Whether attributes of this kind may come only once.
fn is_reachability(kind: u8) -> bool
    ensures { MatchBool result (IsReachability kind) (¬ IsReachability kind) }
{
    kind == MP_REACH || kind == MP_UNREACH
}

fn has_kind(attributes: &[Attribute], kind: u8) -> bool
    ensures { MatchBool result (0 < count_of kind attributes.now) (¬ 0 < count_of kind attributes.now) }
{
    for attribute in attributes {
        if attribute.kind == kind {
            return true;
        }
    }
    false
}

/// Whether the kind comes a second time, and may come only once.
fn repeats(attributes: &[Attribute], kind: u8) -> bool
    ensures { MatchBool result (Repeats kind attributes.now) (¬ Repeats kind attributes.now) }
{
    is_reachability(kind) && has_kind(attributes, kind)
}

/// The attributes that fill the bytes, the first of which stands at the place.
fn read_attributes(alloc: Global, start: u64, bytes: &[u8]) -> Result<List<Attribute>, UpdateFault>
    requires { start + length bytes.now < 2 ^ 64 }
    ensures { AttributesGive start bytes.now result }
{
    let mut attributes = List::new(alloc);
    let mut rest = bytes;
    while !rest.is_empty() {
        let place = start + (bytes.len() - rest.len()) as u64;
        let Some(piece) = attribute_at(rest) else {
            return Err(malformed(place));
        };
        if repeats(attributes.as_slice(), piece.kind) {
            return Err(malformed(place));
        }
        let body = read_body(alloc, place, &piece)?;
        attributes.push(Attribute {
            flags: piece.flags,
            kind: piece.kind,
            body,
        })?;
        rest = piece.rest;
    }
    Ok(attributes)
}

fn read_update(alloc: Global, body: &[u8]) -> Result<Update, UpdateFault>
    ensures { UpdateGives body.now result }
{
    let parts = match parts_of(body) {
        Ok(parts) => parts,
        Err(place) => return Err(malformed(place)),
    };
    let before = parts.withdrawn.len() as u64;
    let attributes = read_attributes(alloc, 4 + before, parts.attributes)?;
    let withdrawn = Bytes::copy_of(alloc, parts.withdrawn)?;
    let nlri = Bytes::copy_of(alloc, parts.nlri)?;
    Ok(Update {
        withdrawn,
        attributes,
        nlri,
    })
}

/// Reads the content of an UPDATE (RFC 4271, section 4.3), which is behind the message header.
///
/// ```text
///  withdrawn length 2 | withdrawn | attribute length 2 | attributes | NLRI
///  attribute: flags 1 | kind 1 | length 1 or 2 | value
///  route of the service function family: type 2 | length 2 | body
/// ```
///
/// What is refused, in this order: the withdrawn routes run past the content (told at 0); the attributes do (told at their
/// length); then for one attribute after the other: it runs past the list, it is a second of kind 14 or 15, one of these
/// kinds has no family, the head of kind 14 is not all there (each told at the attribute), or one of its routes is not whole
/// or has not the length of its type (told at the route). Each ends the session with code 3, subcode 1. The place is
/// counted from the first byte of the content.
pub fn decode_update(alloc: Global, body: &[u8]) -> Result<Update, UpdateFault>
    ensures reads { UpdateGives body.now result }
    ensures exact { Exact body.now result }
{
    read_update(alloc, body)
}
