//! The accepted path routes.

ghost use Rattle.std.specs.Prelude.{◌≡◌, ◌≤◌, ◌<◌, [], ◌∷◌, ◌++◌, List, true, false, length, HoldsAt, IfOk, OnOk, IsTrue, ◌↔◌, MatchOption};
ghost use Rattle.std.specs.Cmp.Lexicographic.{slice_cmp};
ghost use Rattle.std.specs.Ordering.{nat_cmp, is_lt};
ghost use Rattle.std.specs.List.{AllByRecursion};
ghost use Rattle.std.specs.List.Sorted.{IsPartitionPoint};
ghost use Rattle.sfp_attribute.specs.Sfps.{SfpFits};
ghost use Rattle.sfc_routes.specs.PeerRoutes.{PeerRoute};
ghost use Rattle.route_selection.specs.Lowest.{Ascends, Joins};
ghost use Rattle.route_selection.specs.Accepted.{Shows, ShowsNone, Accepted, path_name, path_peer};

use crate::path_routes::PathEntry;
use bgp_update::Nlri;
use sfc_routes::{Roster, Route, RouteList};
use std::alloc::Global;
use wire_base::OutOfMemory;

/// What counts of a peer's route, where it is an accepted path route.
fn entry_of<'a>(roster: &Roster, peer: u16, route: &'a Route) -> Option<PathEntry<'a>>
    ensures { MatchOption result (ShowsNone roster.now (record { peer = peer; route = route.now })) (λ p. Shows roster.now (record { peer = peer; route = route.now }) p) }
{
    let Nlri::Sfpr { rd, spi } = &route.nlri else {
        return None;
    };
    let Some(sfp) = &route.path else {
        return None;
    };
    if !roster.accepts(&route.targets) {
        return None;
    }
    Some(PathEntry {
        spi: *spi,
        rd: *rd,
        peer,
        sfp,
    })
}

fn is_before(held: &PathEntry<'_>, one: &PathEntry<'_>) -> bool
    ensures { result ≡ is_lt (slice_cmp nat_cmp (path_name held.now) (path_name one.now)) }
{
    if held.spi.number() != one.spi.number() {
        return held.spi.number() < one.spi.number();
    }
    held.rd.compare(&one.rd).is_lt()
}

/// How many path routes come before one, by SPI and RD, found by halves.
fn place_of(accepted: &[PathEntry<'_>], one: &PathEntry<'_>) -> usize
    requires { Ascends path_name accepted.now }
    ensures bound { result ≤ length accepted.now }
    ensures point { IsPartitionPoint (λ p. is_lt (slice_cmp nat_cmp (path_name p) (path_name one.now)) ≡ true) (λ p. is_lt (slice_cmp nat_cmp (path_name p) (path_name one.now)) ≡ false) accepted.now result }
{
    accepted.partition_point(
        |held: &PathEntry<'_>| -> bool
            ensures { result ≡ is_lt (slice_cmp nat_cmp (path_name held.now) (path_name one.entry.now)) }
        { is_before(held, one) },
    )
}

/// Whether the path route at a place has the SPI and the RD of one.
fn has_at(accepted: &[PathEntry<'_>], place: usize, one: &PathEntry<'_>) -> bool
    ensures { IsTrue result ↔ (place < length accepted.now) × HoldsAt (λ p. (p.spi ≡ one.now.spi) × (p.rd ≡ one.now.rd)) accepted.now place }
{
    if place >= accepted.len() {
        return false;
    }
    let held = &accepted[place];
    held.spi.number() == one.spi.number() && held.rd == one.rd
}

/// Puts one in a place where it has the same SPI and RD, if its peer is the lower one.
fn keep_lower<'a>(accepted: &mut Vec<PathEntry<'a>>, place: usize, one: PathEntry<'a>)
    requires in_order { Ascends path_name accepted.old.items }
    requires there { (place < length accepted.old.items) × HoldsAt (λ p. (p.spi ≡ one.spi) × (p.rd ≡ one.rd)) accepted.old.items place }
    ensures { Joins path_name path_peer one.entry accepted.old.items accepted.new.items }
{
    let held = &accepted[place];
    if one.peer < held.peer {
        accepted[place] = one;
    }
}

/// Takes one in, unless there is one of the same SPI and RD of a lower peer.
fn take_in<'a>(accepted: &mut Vec<PathEntry<'a>>, one: PathEntry<'a>) -> Result<(), OutOfMemory>
    requires { Ascends path_name accepted.old.items }
    ensures { OnOk result (Joins path_name path_peer one.entry accepted.old.items accepted.new.items) }
{
    let place = place_of(accepted.as_slice(), &one);
    if has_at(accepted.as_slice(), place, &one) {
        keep_lower(accepted, place, one);
    } else {
        accepted.insert(place, one)?;
    }
    Ok(())
}

/// Takes a peer's route in, if it is an accepted path route.
fn take_route<'a>(
    accepted: &mut Vec<PathEntry<'a>>,
    roster: &Roster,
    peer: u16,
    route: &'a Route,
) -> Result<(), OutOfMemory>
    requires { Ascends path_name accepted.old.items }
    ensures { OnOk result ((routes : List PeerRoute) → Accepted roster.now routes accepted.old.items → Accepted roster.now (routes ++ record { peer = peer; route = route.now } ∷ []) accepted.new.items) }
{
    if let Some(one) = entry_of(roster, peer, route) {
        take_in(accepted, one)?;
    }
    Ok(())
}

/// The accepted path routes, in order of SPI, then RD, that of the lowest peer of each.
pub(crate) fn accepted_in<'a>(
    alloc: Global,
    roster: &Roster,
    routes: &'a RouteList,
) -> Result<Vec<PathEntry<'a>>, OutOfMemory>
    ensures value { IfOk result (λ accepted. Accepted roster.now routes.now accepted.items) }
    ensures fits { IfOk result (λ accepted. AllByRecursion (λ p. SfpFits p.sfp) accepted.items) }
{
    let mut accepted = Vec::new(alloc);
    for i in 0..routes.len() {
        let (peer, route) = routes.entry(i);
        take_route(&mut accepted, roster, peer, route)?;
    }
    Ok(accepted)
}
