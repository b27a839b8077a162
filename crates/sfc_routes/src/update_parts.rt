//! The parts of an update that have a meaning: of several attributes of one kind the first.

ghost use Rattle.std.specs.Prelude.{◌≡◌, Some, None, MatchOption};
ghost use Rattle.sfc_routes.specs.Meanings.{first_of, reach_of, reached, unreached, communities_of};

use bgp_update::{Attribute, Body, MpReach, Nlri, Update};
use wire_base::Fixed;

/// MP_REACH_NLRI and MP_UNREACH_NLRI (RFC 4760, sections 3 and 4).
const MP_REACH: u8 = 14;

const MP_UNREACH: u8 = 15;

/// EXTENDED COMMUNITIES (RFC 4360, section 2).
const EXTENDED_COMMUNITIES: u8 = 16;

/// The first attribute of a kind.
pub(crate) fn first_of(update: &Update, kind: u8) -> Option<&Attribute>
    ensures { MatchOption result (first_of kind update.now ≡ None) (λ a. first_of kind update.now ≡ Some a.now) }
{
    for attribute in update.attributes.as_slice() {
        if attribute.kind == kind {
            return Some(attribute);
        }
    }
    None
}

/// The reachable routes and what stands before them.
pub(crate) fn reach_of(update: &Update) -> Option<&MpReach>
    ensures { MatchOption result (reach_of update.now ≡ None) (λ r. reach_of update.now ≡ Some r.now) }
{
    let attribute = first_of(update, MP_REACH)?;
    match &attribute.body {
        Body::Reach(reach) => Some(reach),
        _ => None,
    }
}

/// The reachable routes.
pub(crate) fn reached(update: &Update) -> &[Nlri]
    ensures { result.now ≡ reached update.now }
{
    match reach_of(update) {
        Some(reach) => reach.nlri.as_slice(),
        None => &[],
    }
}

/// The routes that are withdrawn.
pub(crate) fn unreached(update: &Update) -> &[Nlri]
    ensures { result.now ≡ unreached update.now }
{
    let Some(attribute) = first_of(update, MP_UNREACH) else {
        return &[];
    };
    match &attribute.body {
        Body::Unreach(unreach) => unreach.nlri.as_slice(),
        _ => &[],
    }
}

/// The extended communities.
pub(crate) fn communities_of(update: &Update) -> &[Fixed<8>]
    ensures { result.now ≡ communities_of update.now }
{
    let Some(attribute) = first_of(update, EXTENDED_COMMUNITIES) else {
        return &[];
    };
    match &attribute.body {
        Body::Communities(communities) => communities.as_slice(),
        _ => &[],
    }
}
