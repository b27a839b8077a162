//! Where a route stands in a list that is in order.

ghost use Rattle.std.specs.Prelude.{◌≡◌, ◌≤◌, ◌<◌, true, false, length, HoldsAt, MatchBool};
ghost use Rattle.std.specs.Cmp.Lexicographic.{slice_cmp};
ghost use Rattle.std.specs.Ordering.{nat_cmp, is_lt};
ghost use Rattle.std.specs.List.Sorted.{IsPartitionPoint};
ghost use Rattle.sfc_routes.specs.RouteLists.{IsThere};
ghost use Rattle.sfc_routes.specs.RouteOrder.{InOrder, key, key_of};

use crate::held_routes::HeldRoute;
use crate::route_keys::RouteKey;
use bgp_update::Nlri;

/// Whether a route comes before a peer's route of this name.
fn is_before(held: &HeldRoute, peer: u16, nlri: &Nlri) -> bool
    ensures { result ≡ is_lt (slice_cmp nat_cmp (key_of held.now) (key peer nlri.now)) }
{
    RouteKey::of(held.peer(), &held.route().nlri).is_before(&RouteKey::of(peer, nlri))
}

/// How many routes come before a peer's route of this name, found by halves.
pub(crate) fn place_of(entries: &[HeldRoute], peer: u16, nlri: &Nlri) -> usize
    requires { InOrder entries.now }
    ensures bound { result ≤ length entries.now }
    ensures point { IsPartitionPoint (λ e. is_lt (slice_cmp nat_cmp (key_of e) (key peer nlri.now)) ≡ true) (λ e. is_lt (slice_cmp nat_cmp (key_of e) (key peer nlri.now)) ≡ false) entries.now result }
{
    entries.partition_point(
        |held: &HeldRoute| -> bool
            ensures { result ≡ is_lt (slice_cmp nat_cmp (key_of held.now) (key peer nlri.entry.now)) }
        { is_before(held, peer, nlri) },
    )
}

/// Whether the route at a place is the peer's, and has this name.
pub(crate) fn has_at(entries: &[HeldRoute], place: usize, peer: u16, nlri: &Nlri) -> bool
    ensures { MatchBool result (IsThere entries.now place peer nlri.now) (¬ IsThere entries.now place peer nlri.now) }
{
    if place >= entries.len() {
        return false;
    }
    let held = &entries[place];
    if held.peer() != peer {
        return false;
    }
    held.route().nlri.same(nlri)
}
