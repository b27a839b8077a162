//! Edits of a list of routes that stays in order.

ghost use Rattle.std.specs.Prelude.{◌≡◌, ◌≤◌, ◌<◌, ◌+◌, ◌==◌, ◌⊎◌, true, not, reverse, vec_len, vec_capacity, Contains, IfOk};
ghost use Rattle.std.specs.List.{AllByRecursion};
ghost use Rattle.sfc_routes.specs.PeerRoutes.{RouteFits, IsOf, IsRouteChange};
ghost use Rattle.sfc_routes.specs.LastWords.{Follows};
ghost use Rattle.sfc_routes.specs.RouteLists.{IsRouteList, Loses, LosesNamed, Puts, PutsAll, peer_routes};

use crate::held_routes::HeldRoute;
use crate::route_changes::RouteChange;
use crate::route_searches::{has_at, place_of};
use bgp_update::Nlri;
use std::alloc::Global;
use wire_base::OutOfMemory;

/// Takes a peer's route of this name out, if there is one.
fn withdraw(entries: &mut Vec<HeldRoute>, peer: u16, nlri: &Nlri)
    requires { IsRouteList entries.old.items }
    ensures kept { IsRouteList entries.new.items }
    ensures gone { Loses (IsOf peer nlri.now) entries.old.items entries.new.items }
    ensures fewer { vec_len entries.new ≤ vec_len entries.old }
    ensures capacity { vec_capacity entries.new ≡ vec_capacity entries.old }
{
    let place = place_of(entries.as_slice(), peer, nlri);
    if has_at(entries.as_slice(), place, peer, nlri) {
        entries.remove(place);
    }
}

/// Takes a peer's routes of these names out.
fn withdraw_named(entries: &mut Vec<HeldRoute>, peer: u16, nlris: &[Nlri])
    requires { IsRouteList entries.old.items }
    ensures kept { IsRouteList entries.new.items }
    ensures gone { LosesNamed peer nlris.now entries.old.items entries.new.items }
    ensures fewer { vec_len entries.new ≤ vec_len entries.old }
    ensures capacity { vec_capacity entries.new ≡ vec_capacity entries.old }
{
    for nlri in nlris {
        withdraw(entries, peer, nlri);
    }
}

/// Takes all routes of a peer out.
fn withdraw_all(entries: &mut Vec<HeldRoute>, peer: u16)
    requires { IsRouteList entries.old.items }
    ensures kept { IsRouteList entries.new.items }
    ensures gone { Loses (λ e. e.peer ≡ peer) entries.old.items entries.new.items }
    ensures fewer { vec_len entries.new ≤ vec_len entries.old }
    ensures capacity { vec_capacity entries.new ≡ vec_capacity entries.old }
{
    entries.retain(
        |held: &HeldRoute| -> bool
            ensures { result ≡ not (held.now.peer == peer) }
        { held.peer() != peer },
    );
}

/// Withdraws what a change withdraws.
fn take_out(entries: &mut Vec<HeldRoute>, change: &RouteChange)
    requires { IsRouteList entries.old.items }
    ensures kept { IsRouteList entries.new.items }
    ensures gone { Loses (λ e. (e.peer ≡ change.now.peer) × ((change.now.all ≡ true) ⊎ Contains change.now.withdrawn e.route.nlri)) entries.old.items entries.new.items }
    ensures fewer { vec_len entries.new ≤ vec_len entries.old }
    ensures capacity { vec_capacity entries.new ≡ vec_capacity entries.old }
{
    if change.all {
        withdraw_all(entries, change.peer);
    } else {
        withdraw_named(entries, change.peer, change.withdrawn.as_slice());
    }
}

/// Puts a route in its place, where there is room for one more; it stands for the peer's route of this name.
fn put(entries: &mut Vec<HeldRoute>, held: HeldRoute)
    requires list { IsRouteList entries.old.items }
    requires fits { RouteFits held.route }
    requires room { vec_len entries.old < vec_capacity entries.old }
    ensures kept { IsRouteList entries.new.items }
    ensures put { Puts held entries.old.items entries.new.items }
    ensures more { vec_len entries.new ≤ vec_len entries.old + 1 }
    ensures capacity { vec_capacity entries.old ≤ vec_capacity entries.new }
{
    let place = place_of(entries.as_slice(), held.peer(), &held.route().nlri);
    if has_at(entries.as_slice(), place, held.peer(), &held.route().nlri) {
        entries[place] = held;
    } else {
        match entries.insert(place, held) {
            Ok(()) => {}
            Err(_) => unreachable!(),
        }
    }
}

/// Puts routes, the last of the list first, where there is room for all of them.
fn put_all(entries: &mut Vec<HeldRoute>, mut fresh: Vec<HeldRoute>)
    requires list { IsRouteList entries.old.items }
    requires fits { AllByRecursion (λ e. RouteFits e.route) fresh.items }
    requires room { vec_len entries.old + vec_len fresh ≤ vec_capacity entries.old }
    ensures kept { IsRouteList entries.new.items }
    ensures put { PutsAll (reverse fresh.items) entries.old.items entries.new.items }
{
    while let Some(held) = fresh.pop() {
        put(entries, held);
    }
}

/// Does what a change says, with copies of its announced routes, the last one first, where there is room for them.
pub(crate) fn take_in(entries: &mut Vec<HeldRoute>, change: &RouteChange, fresh: Vec<HeldRoute>)
    requires list { IsRouteList entries.old.items }
    requires fits { IsRouteChange change.now }
    requires copies { fresh.items ≡ reverse (peer_routes change.now.peer change.now.announced) }
    requires room { vec_len entries.old + vec_len fresh ≤ vec_capacity entries.old }
    ensures kept { IsRouteList entries.new.items }
    ensures follows { Follows entries.old.items change.now entries.new.items }
{
    take_out(entries, change);
    put_all(entries, fresh);
}

/// Copies of a change's announced routes, the last one first.
pub(crate) fn copies_of(alloc: Global, change: &RouteChange) -> Result<Vec<HeldRoute>, OutOfMemory>
    ensures { IfOk result (λ fresh. fresh.items ≡ reverse (peer_routes change.now.peer change.now.announced)) }
{
    let routes = change.announced.as_slice();
    let mut fresh = Vec::with_capacity(alloc, routes.len())?;
    for route in routes {
        let held = HeldRoute::copy_of(alloc, change.peer, route)?;
        fresh.push(held)?;
    }
    fresh.reverse();
    Ok(fresh)
}
