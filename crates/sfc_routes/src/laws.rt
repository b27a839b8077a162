//! What holds of changes and of lists of routes, whatever makes them.

ghost use Rattle.std.specs.Prelude.{◌≡◌, ℕ, Some, List, Contains};
ghost use Rattle.bgp_update.specs.declared.attributes.Attribute.{Attribute};
ghost use Rattle.bgp_update.specs.declared.updates.Update.{Update};
ghost use Rattle.sfc_routes.specs.declared.route_changes.RouteChange.{RouteChange};
ghost use Rattle.sfc_routes.specs.PeerRoutes.{PeerRoute, IsOf};
ghost use Rattle.sfc_routes.specs.LastWords.{Stands};
ghost use Rattle.sfc_routes.specs.Meanings.{first_of, BytesIn, ChangeOf};
ghost use Rattle.sfc_routes.specs.RouteLists.{IsRouteList};

use sfp_attribute::{every_value_is_read_or_refused, one_reading};

/// An update has at most one change.
pub fn an_update_has_one_change()
    ensures { (peer : ℕ) (u : Update) (a b : RouteChange) → ChangeOf peer u a → ChangeOf peer u b → a ≡ b }
{
    one_reading();
}

/// Every update has a change, if what is unread in its SFP attribute is bytes.
pub fn every_update_has_a_change()
    ensures { (peer : ℕ) (u : Update) → ((a : Attribute) → first_of 37 u ≡ Some a → BytesIn a.body)
        → (change : RouteChange) × ChangeOf peer u change }
{
    every_value_is_read_or_refused();
}

/// Lists that stand for the same changes are one.
pub fn a_history_has_one_list()
    ensures { (list other : List PeerRoute) (changes : List RouteChange) → IsRouteList list → IsRouteList other
        → Stands list changes → Stands other changes → list ≡ other }
{}

/// A list has at most one route for a peer and an NLRI.
pub fn a_name_has_one_route()
    ensures { (list : List PeerRoute) (e f : PeerRoute) → IsRouteList list → Contains list e → Contains list f
        → IsOf e.peer e.route.nlri f → e ≡ f }
{}
