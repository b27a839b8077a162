ghost use Rattle.std.specs.Prelude.{◌≡◌, ◌≢◌, ◌<◌, ◌+◌, ◌^◌, length};
ghost use Rattle.bgp_update.specs.Attributes.{IsReachability};
ghost use Rattle.bgp_update.specs.Refusals.{header_size};
ghost use Rattle.bgp_update.specs.Steps.{BodyGives};

use crate::attributes::{Body, MpReach, MpUnreach};
use crate::communities::{has_communities, read_communities};
use crate::faults::{UpdateFault, malformed};
use crate::nlri_lists::read_list;
use crate::pieces::{AttributePiece, header_of};
use crate::reach::{FAMILY_SIZE, behind_family, reach_head};
use std::alloc::Global;
use wire_base::Bytes;

/// The kinds of attributes whose values are read: MP_REACH_NLRI, MP_UNREACH_NLRI (RFC 4760, sections 3 and 4) and
/// EXTENDED COMMUNITIES (RFC 4360, section 2).
pub(crate) const MP_REACH: u8 = 14;

pub(crate) const MP_UNREACH: u8 = 15;

pub(crate) const EXTENDED_COMMUNITIES: u8 = 16;

fn read_reach(alloc: Global, start: u64, piece: &AttributePiece<'_>) -> Result<Body, UpdateFault>
    requires kind { piece.now.kind ≡ 14 }
    requires place { start + header_size piece.now.flags + length piece.now.value.now < 2 ^ 64 }
    ensures { BodyGives start piece.now.flags piece.now.kind piece.now.value.now result }
{
    let value = piece.value;
    if value.len() < FAMILY_SIZE {
        return Err(malformed(start));
    }
    let Some(behind) = behind_family(value) else {
        return Ok(Body::Raw(Bytes::copy_of(alloc, value)?));
    };
    let Some(head) = reach_head(behind) else {
        return Err(malformed(start));
    };
    let before = header_of(piece.flags) + (value.len() - head.list.len()) as u64;
    let nlri = read_list(alloc, start + before, head.list)?;
    Ok(Body::Reach(MpReach {
        next_hop: head.next_hop,
        reserved: head.reserved,
        nlri,
    }))
}

fn read_unreach(alloc: Global, start: u64, piece: &AttributePiece<'_>) -> Result<Body, UpdateFault>
    requires kind { piece.now.kind ≡ 15 }
    requires place { start + header_size piece.now.flags + length piece.now.value.now < 2 ^ 64 }
    ensures { BodyGives start piece.now.flags piece.now.kind piece.now.value.now result }
{
    let value = piece.value;
    if value.len() < FAMILY_SIZE {
        return Err(malformed(start));
    }
    let Some(list) = behind_family(value) else {
        return Ok(Body::Raw(Bytes::copy_of(alloc, value)?));
    };
    let before = header_of(piece.flags) + 3;
    let nlri = read_list(alloc, start + before, list)?;
    Ok(Body::Unreach(MpUnreach { nlri }))
}

fn read_extended(alloc: Global, start: u64, piece: &AttributePiece<'_>) -> Result<Body, UpdateFault>
    requires { piece.now.kind ≡ 16 }
    ensures { BodyGives start piece.now.flags piece.now.kind piece.now.value.now result }
{
    if has_communities(piece.flags, piece.value) {
        let communities = read_communities(alloc, piece.value)?;
        return Ok(Body::Communities(communities));
    }
    Ok(Body::Raw(Bytes::copy_of(alloc, piece.value)?))
}

fn read_raw(alloc: Global, start: u64, piece: &AttributePiece<'_>) -> Result<Body, UpdateFault>
    requires reachability { ¬ IsReachability piece.now.kind }
    requires communities { piece.now.kind ≢ 16 }
    ensures { BodyGives start piece.now.flags piece.now.kind piece.now.value.now result }
{
    Ok(Body::Raw(Bytes::copy_of(alloc, piece.value)?))
}

/// The value of an attribute that stands at the place.
pub(crate) fn read_body(
    alloc: Global,
    start: u64,
    piece: &AttributePiece<'_>,
) -> Result<Body, UpdateFault>
    requires { start + header_size piece.now.flags + length piece.now.value.now < 2 ^ 64 }
    ensures { BodyGives start piece.now.flags piece.now.kind piece.now.value.now result }
{
    match piece.kind {
        MP_REACH => read_reach(alloc, start, piece),
        MP_UNREACH => read_unreach(alloc, start, piece),
        EXTENDED_COMMUNITIES => read_extended(alloc, start, piece),
        _ => read_raw(alloc, start, piece),
    }
}
