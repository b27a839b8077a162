//! The attributes of the UPDATE that announces a route.

ghost use Rattle.std.specs.Prelude.{◌≡◌, ◌≤◌, [], ◌∷◌, ◌++◌, ◌==◌, true, false, length, OnOk, IfOk, IfSome};
ghost use Rattle.std.specs.List.{AllByRecursion};
ghost use Rattle.sfp_attribute.specs.Sfps.{SfpFits};
ghost use Rattle.bgp_update.specs.Attributes.{body_bytes};
ghost use Rattle.announced_files.specs.Announcements.{flags_for, attribute_of, origin, ways, reach_for, communities_for, sfp_for, attributes_for, announcement, unreach_for, withdrawal};
ghost use Rattle.announced_files.specs.Announceable.{IsAnnounceable};

use bgp_update::{Attribute, Body, MpReach, MpUnreach, Update};
use sfc_routes::Route;
use sfp_attribute::{Sfp, encode_sfp};
use std::alloc::Global;
use wire_base::{Bytes, Fixed, List, OutOfMemory};

/// The attribute type codes.
const ORIGIN: u8 = 1;

const AS_PATH: u8 = 2;

const LOCAL_PREF: u8 = 5;

const MP_REACH_NLRI: u8 = 14;

const MP_UNREACH_NLRI: u8 = 15;

const EXTENDED_COMMUNITIES: u8 = 16;

const SFP: u8 = 37;

/// The flags of well-known attributes, of optional ones, and of optional ones that are passed on.
const WELL_KNOWN: u8 = 0x40;

const OPTIONAL: u8 = 0x80;

const OPTIONAL_TRANSITIVE: u8 = 0xC0;

/// The flag of a length of 2 bytes, and the most bytes of a value without it.
const EXTENDED_LENGTH: u8 = 0x10;

const SHORT: usize = 255;

/// The value of an ORIGIN of the announcing AS itself.
const IGP: [u8; 1] = [0];

/// An AS_SEQUENCE of one AS, before its 4 bytes.
const ONE_IN_SEQUENCE: [u8; 2] = [2, 1];

/// The value of LOCAL_PREF: 100.
const PREFERENCE: [u8; 4] = [0, 0, 0, 100];

/// The flags of an attribute whose value has so many bytes.
fn flags_of(flags: u8, size: usize) -> u8
    requires { flags ≤ 192 }
    ensures { result ≡ flags_for flags size }
{
    if size > SHORT {
        flags + EXTENDED_LENGTH
    } else {
        flags
    }
}

/// An attribute whose value has so many bytes.
fn attribute_with(flags: u8, kind: u8, body: Body, size: usize) -> Attribute
    requires flags { flags ≤ 192 }
    requires size { size ≡ length (body_bytes body) }
    ensures { result ≡ attribute_of flags kind body }
{
    Attribute {
        flags: flags_of(flags, size),
        kind,
        body,
    }
}

/// Appends an attribute with these bytes as its value.
fn push_raw(
    list: &mut List<Attribute>,
    flags: u8,
    kind: u8,
    value: Bytes,
) -> Result<(), OutOfMemory>
    requires { flags ≤ 192 }
    ensures { OnOk result (list.new ≡ list.old ++ attribute_of flags kind (Body.Raw value) ∷ []) }
{
    let size = value.as_slice().len();
    list.push(attribute_with(flags, kind, Body::Raw(value), size))?;
    Ok(())
}

/// ORIGIN.
fn push_origin(alloc: Global, list: &mut List<Attribute>) -> Result<(), OutOfMemory>
    ensures { OnOk result (list.new ≡ list.old ++ origin ∷ []) }
{
    let value = Bytes::copy_of(alloc, &IGP)?;
    push_raw(list, WELL_KNOWN, ORIGIN, value)
}

/// An empty AS_PATH and LOCAL_PREF, as they are inside of one AS.
fn push_inner_way(alloc: Global, list: &mut List<Attribute>, asn: u32) -> Result<(), OutOfMemory>
    ensures { OnOk result (list.new ≡ list.old ++ ways true asn) }
{
    push_raw(list, WELL_KNOWN, AS_PATH, Bytes::new(alloc))?;
    let value = Bytes::copy_of(alloc, &PREFERENCE)?;
    push_raw(list, WELL_KNOWN, LOCAL_PREF, value)
}

/// An AS_PATH of the announcing AS.
fn push_outer_way(alloc: Global, list: &mut List<Attribute>, asn: u32) -> Result<(), OutOfMemory>
    ensures { OnOk result (list.new ≡ list.old ++ ways false asn) }
{
    let mut value = Bytes::copy_of(alloc, &ONE_IN_SEQUENCE)?;
    value.push_u32(asn)?;
    push_raw(list, WELL_KNOWN, AS_PATH, value)
}

fn push_way(
    alloc: Global,
    list: &mut List<Attribute>,
    own: u32,
    asn: u32,
) -> Result<(), OutOfMemory>
    ensures { OnOk result (list.new ≡ list.old ++ ways (own == asn) asn) }
{
    if own == asn {
        return push_inner_way(alloc, list, asn);
    }
    push_outer_way(alloc, list, asn)
}

/// MP_REACH_NLRI. Its value never has more than 255 bytes.
fn push_reach(alloc: Global, list: &mut List<Attribute>, route: &Route) -> Result<(), OutOfMemory>
    requires { IsAnnounceable route.now }
    ensures { OnOk result (list.new ≡ list.old ++ reach_for route.now ∷ []) }
{
    let mut nlri = List::new(alloc);
    nlri.push(route.nlri.copy(alloc)?)?;
    let body = Body::Reach(MpReach {
        next_hop: route.next_hop,
        reserved: 0,
        nlri,
    });
    list.push(Attribute {
        flags: OPTIONAL,
        kind: MP_REACH_NLRI,
        body,
    })?;
    Ok(())
}

fn copy_of(alloc: Global, targets: &[Fixed<8>]) -> Result<List<Fixed<8>>, OutOfMemory>
    ensures { IfOk result (λ copy. copy ≡ targets.now) }
{
    let mut copy = List::new(alloc);
    for target in targets {
        copy.push(*target)?;
    }
    Ok(copy)
}

/// EXTENDED COMMUNITIES of these targets.
fn communities_attribute(alloc: Global, targets: &[Fixed<8>]) -> Result<Attribute, OutOfMemory>
    requires few { length targets.now ≤ 4096 }
    requires octets { AllByRecursion (λ t. length t ≡ 8) targets.now }
    ensures { IfOk result (λ made. made ≡ attribute_of 192 16 (Body.Communities targets.now)) }
{
    let size = 8 * targets.len();
    let body = Body::Communities(copy_of(alloc, targets)?);
    Ok(attribute_with(OPTIONAL_TRANSITIVE, EXTENDED_COMMUNITIES, body, size))
}

/// EXTENDED COMMUNITIES, where there are targets.
fn push_communities(
    alloc: Global,
    list: &mut List<Attribute>,
    targets: &[Fixed<8>],
) -> Result<(), OutOfMemory>
    requires few { length targets.now ≤ 4096 }
    requires octets { AllByRecursion (λ t. length t ≡ 8) targets.now }
    ensures { OnOk result (list.new ≡ list.old ++ communities_for targets.now) }
{
    if targets.is_empty() {
        return Ok(());
    }
    let made = communities_attribute(alloc, targets)?;
    list.push(made)?;
    Ok(())
}

/// SFP, where there is a path.
fn push_path(
    alloc: Global,
    list: &mut List<Attribute>,
    path: &Option<Sfp>,
) -> Result<(), OutOfMemory>
    requires { IfSome path.now SfpFits }
    ensures { OnOk result (list.new ≡ list.old ++ sfp_for path.now) }
{
    match path {
        None => Ok(()),
        Some(sfp) => {
            let value = encode_sfp(alloc, sfp)?;
            push_raw(list, OPTIONAL_TRANSITIVE, SFP, value)
        }
    }
}

/// The attributes of a route, in their order.
fn attributes_of(
    alloc: Global,
    own: u32,
    asn: u32,
    route: &Route,
) -> Result<List<Attribute>, OutOfMemory>
    requires { IsAnnounceable route.now }
    ensures { IfOk result (λ list. list ≡ attributes_for (own == asn) asn route.now) }
{
    let mut list = List::new(alloc);
    push_origin(alloc, &mut list)?;
    push_way(alloc, &mut list, own, asn)?;
    push_reach(alloc, &mut list, route)?;
    push_communities(alloc, &mut list, route.targets.as_slice())?;
    push_path(alloc, &mut list, &route.path)?;
    Ok(list)
}

/// The update by which a peer of this AS announces the route to a local side of the other AS (RFC 4271, section 5).
pub(crate) fn announcement_of(
    alloc: Global,
    own: u32,
    asn: u32,
    route: &Route,
) -> Result<Update, OutOfMemory>
    requires { IsAnnounceable route.now }
    ensures { IfOk result (λ update. update ≡ announcement own asn route.now) }
{
    let attributes = attributes_of(alloc, own, asn, route)?;
    Ok(Update {
        withdrawn: Bytes::new(alloc),
        attributes,
        nlri: Bytes::new(alloc),
    })
}

/// MP_UNREACH_NLRI. Its value never has more than 255 bytes.
fn unreach_of(alloc: Global, route: &Route) -> Result<Attribute, OutOfMemory>
    requires { IsAnnounceable route.now }
    ensures { IfOk result (λ made. made ≡ unreach_for route.now) }
{
    let mut nlri = List::new(alloc);
    nlri.push(route.nlri.copy(alloc)?)?;
    Ok(Attribute {
        flags: OPTIONAL,
        kind: MP_UNREACH_NLRI,
        body: Body::Unreach(MpUnreach { nlri }),
    })
}

/// The update by which a peer withdraws the route (RFC 4760, section 4).
pub(crate) fn withdrawal_of(alloc: Global, route: &Route) -> Result<Update, OutOfMemory>
    requires { IsAnnounceable route.now }
    ensures { IfOk result (λ update. update ≡ withdrawal route.now) }
{
    let mut attributes = List::new(alloc);
    attributes.push(unreach_of(alloc, route)?)?;
    Ok(Update {
        withdrawn: Bytes::new(alloc),
        attributes,
        nlri: Bytes::new(alloc),
    })
}
