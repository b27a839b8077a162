//! The candidates of the usable instance routes.

ghost use Rattle.std.specs.Prelude.{◌≡◌, ◌≤◌, ◌<◌, [], ◌∷◌, ◌++◌, List, true, false, length, HoldsAt, IfOk, OnOk, IsTrue, ◌↔◌, MatchOption};
ghost use Rattle.std.specs.Cmp.Lexicographic.{slice_cmp};
ghost use Rattle.std.specs.Ordering.{nat_cmp, is_lt};
ghost use Rattle.std.specs.List.Sorted.{IsPartitionPoint};
ghost use Rattle.sfc_routes.specs.PeerRoutes.{PeerRoute};
ghost use Rattle.route_selection.specs.Lowest.{Ascends, Joins};
ghost use Rattle.route_selection.specs.Usable.{Offers, OffersNone, Usable, name_of, peer_of};

use crate::candidates::Candidate;
use bgp_update::Nlri;
use sfc_routes::{Roster, Route, RouteList};
use std::alloc::Global;
use wire_base::OutOfMemory;

/// The candidate of a peer's route, where it is a usable instance route.
fn candidate_of(roster: &Roster, peer: u16, route: &Route) -> Option<Candidate>
    ensures { MatchOption result (OffersNone roster.now (record { peer = peer; route = route.now })) (λ c. Offers roster.now (record { peer = peer; route = route.now }) c) }
{
    let Nlri::Sfir { rd, kind } = &route.nlri else {
        return None;
    };
    if !roster.accepts(&route.targets) {
        return None;
    }
    let Some(forwarder) = roster.forwarder_at(&route.next_hop) else {
        return None;
    };
    let Some(instance) = roster.instance_at(rd, *kind) else {
        return None;
    };
    Some(Candidate {
        kind: *kind,
        rd: *rd,
        peer,
        forwarder,
        instance,
    })
}

fn is_before(held: &Candidate, one: &Candidate) -> bool
    ensures { result ≡ is_lt (slice_cmp nat_cmp (name_of held.now) (name_of one.now)) }
{
    if held.kind != one.kind {
        return held.kind < one.kind;
    }
    held.rd.compare(&one.rd).is_lt()
}

/// How many candidates come before one, by type and RD, found by halves.
fn place_of(usable: &[Candidate], one: &Candidate) -> usize
    requires { Ascends name_of usable.now }
    ensures bound { result ≤ length usable.now }
    ensures point { IsPartitionPoint (λ c. is_lt (slice_cmp nat_cmp (name_of c) (name_of one.now)) ≡ true) (λ c. is_lt (slice_cmp nat_cmp (name_of c) (name_of one.now)) ≡ false) usable.now result }
{
    usable.partition_point(
        |held: &Candidate| -> bool
            ensures { result ≡ is_lt (slice_cmp nat_cmp (name_of held.now) (name_of one.entry.now)) }
        { is_before(held, one) },
    )
}

/// Whether the candidate at a place has the type and the RD of one.
fn has_at(usable: &[Candidate], place: usize, one: &Candidate) -> bool
    ensures { IsTrue result ↔ (place < length usable.now) × HoldsAt (λ c. (c.kind ≡ one.now.kind) × (c.rd ≡ one.now.rd)) usable.now place }
{
    place < usable.len() && usable[place].kind == one.kind && usable[place].rd == one.rd
}

/// Puts one in a place where it has the same type and RD, if its peer is the lower one.
fn keep_lower(usable: &mut Vec<Candidate>, place: usize, one: Candidate)
    requires in_order { Ascends name_of usable.old.items }
    requires there { (place < length usable.old.items) × HoldsAt (λ c. (c.kind ≡ one.kind) × (c.rd ≡ one.rd)) usable.old.items place }
    ensures { Joins name_of peer_of one usable.old.items usable.new.items }
{
    if one.peer < usable[place].peer {
        usable[place] = one;
    }
}

/// Takes one in, unless there is one of the same type and RD of a lower peer.
fn take_in(usable: &mut Vec<Candidate>, one: Candidate) -> Result<(), OutOfMemory>
    requires { Ascends name_of usable.old.items }
    ensures { OnOk result (Joins name_of peer_of one usable.old.items usable.new.items) }
{
    let place = place_of(usable.as_slice(), &one);
    if has_at(usable.as_slice(), place, &one) {
        keep_lower(usable, place, one);
    } else {
        usable.insert(place, one)?;
    }
    Ok(())
}

/// Takes a peer's route in, if it is usable.
fn take_route(
    usable: &mut Vec<Candidate>,
    roster: &Roster,
    peer: u16,
    route: &Route,
) -> Result<(), OutOfMemory>
    requires { Ascends name_of usable.old.items }
    ensures { OnOk result ((routes : List PeerRoute) → Usable roster.now routes usable.old.items → Usable roster.now (routes ++ record { peer = peer; route = route.now } ∷ []) usable.new.items) }
{
    if let Some(one) = candidate_of(roster, peer, route) {
        take_in(usable, one)?;
    }
    Ok(())
}

/// The candidates of the usable instance routes, in order of type, then RD, that of the lowest peer of each.
pub(crate) fn usable_in(
    alloc: Global,
    roster: &Roster,
    routes: &RouteList,
) -> Result<Vec<Candidate>, OutOfMemory>
    ensures { IfOk result (λ usable. Usable roster.now routes.now usable.items) }
{
    let mut usable = Vec::new(alloc);
    for i in 0..routes.len() {
        let (peer, route) = routes.entry(i);
        take_route(&mut usable, roster, peer, route)?;
    }
    Ok(usable)
}
