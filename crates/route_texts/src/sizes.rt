//! How many bytes the UPDATE that announces a route has.

ghost use Rattle.std.specs.Prelude.{◌≡◌, ◌+◌, ◌*◌, ◌≤◌, ◌<◌, min, length, MatchBool};
ghost use Rattle.std.specs.List.{flat_map};
ghost use Rattle.sfp_attribute.specs.Sfps.{hop_part_bytes, hop_parts_bytes, part_bytes, parts_bytes};
ghost use Rattle.bgp_update.specs.Attributes.{hop_bytes};
ghost use Rattle.bgp_update.specs.Nlris.{nlri_bytes};
ghost use Rattle.route_texts.specs.RouteTexts.{attribute_size as size_of_attribute, targets_size as size_of_targets, path_size as size_of_path, reach_size as size_of_reach, update_size};

use bgp_update::Nlri;
use sfc_routes::Route;
use sfp_attribute::{HopPart, Part, Sfp};
use wire_base::{Fixed, NextHop};

/// The size from which on no more is told apart; an UPDATE has fewer bytes.
const CAP: u64 = 65_536;

/// A sum, or the cap where it is above it.
fn capped(total: u64, more: u64) -> u64
    requires total { total ≤ 65536 }
    requires more { more ≤ 65536 }
    ensures { result ≡ min 65536 (total + more) }
{
    CAP.min(total + more)
}

/// So many values of `size` bytes each.
fn many(count: usize, size: u64) -> u64
    requires { size ≤ 8 }
    ensures { result ≡ min 65536 (size * count) }
{
    let count = count.min(65_536) as u64;
    CAP.min(size * count)
}

/// The bytes of RDs.
fn rds_size(rds: &[Fixed<8>]) -> u64
    ensures { result ≡ min 65536 (length (flat_map (λ rd. rd) rds.now)) }
{
    let mut total = 0;
    for rd in rds {
        total = capped(total, rd.bytes().len() as u64);
    }
    total
}

fn hop_part_size(part: &HopPart) -> u64
    ensures { result ≡ min 65536 (length (hop_part_bytes part.now)) }
{
    match part {
        HopPart::Sft { rds, .. } => capped(5, rds_size(rds.as_slice())),
        HopPart::Other { body, .. } => capped(3, many(body.as_slice().len(), 1)),
    }
}

fn hop_parts_size(parts: &[HopPart]) -> u64
    ensures { result ≡ min 65536 (length (hop_parts_bytes parts.now)) }
{
    let mut total = 0;
    for part in parts {
        total = capped(total, hop_part_size(part));
    }
    total
}

fn part_size(part: &Part) -> u64
    ensures { result ≡ min 65536 (length (part_bytes part.now)) }
{
    match part {
        Part::Association { rd, .. } => 7 + rd.bytes().len() as u64,
        Part::Hop { parts, .. } => capped(4, hop_parts_size(parts.as_slice())),
        Part::Other { body, .. } => capped(3, many(body.as_slice().len(), 1)),
    }
}

fn parts_size(parts: &[Part]) -> u64
    ensures { result ≡ min 65536 (length (parts_bytes parts.now)) }
{
    let mut total = 0;
    for part in parts {
        total = capped(total, part_size(part));
    }
    total
}

/// An attribute with a value of so many bytes.
fn attribute_size(size: u64) -> u64
    requires { size ≤ 65536 }
    ensures value { result ≡ size_of_attribute size }
    ensures most { result ≤ 65540 }
{
    if size > 255 { 4 + size } else { 3 + size }
}

fn hop_size(hop: &NextHop) -> u64
    ensures value { result ≡ length (hop_bytes hop.now) }
    ensures most { result ≤ 16 }
{
    match hop {
        NextHop::Four(octets) => octets.bytes().len() as u64,
        NextHop::Sixteen(octets) => octets.bytes().len() as u64,
    }
}

fn nlri_size(nlri: &Nlri) -> u64
    ensures { result ≡ min 65536 (length (nlri_bytes nlri.now)) }
{
    match nlri {
        Nlri::Sfir { rd, .. } => 6 + rd.bytes().len() as u64,
        Nlri::Sfpr { rd, .. } => 7 + rd.bytes().len() as u64,
        Nlri::Other { body, .. } => capped(4, many(body.as_slice().len(), 1)),
    }
}

fn path_size(path: &Option<Sfp>) -> u64
    ensures value { min 65536 result ≡ min 65536 (size_of_path path.now) }
    ensures most { result ≤ 65540 }
{
    match path {
        Some(sfp) => attribute_size(parts_size(sfp.parts.as_slice())),
        None => 0,
    }
}

fn targets_size(count: usize) -> u64
    ensures value { min 65536 result ≡ min 65536 (size_of_targets count) }
    ensures most { result ≤ 65540 }
{
    if count == 0 {
        return 0;
    }
    attribute_size(many(count, 8))
}

/// Whether the UPDATE that announces the route has at most 4,096 bytes.
pub(crate) fn is_small(route: &Route) -> bool
    ensures { MatchBool result (update_size route.now ≤ 4096) (¬ (update_size route.now ≤ 4096)) }
{
    let reach = attribute_size(capped(5 + hop_size(&route.next_hop), nlri_size(&route.nlri)));
    let targets = targets_size(route.targets.as_slice().len());
    let path = path_size(&route.path);
    37 + reach + targets + path <= 4096
}
