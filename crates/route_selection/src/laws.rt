//! That routes have one selection, and which path routes it takes.

ghost use Rattle.std.specs.Prelude.{◌≡◌, ◌↔◌, List, Contains};
ghost use Rattle.sfc_routes.specs.declared.route_changes.RouteChange.{RouteChange};
ghost use Rattle.sfc_routes.specs.Entries.{Entries, IsRoster};
ghost use Rattle.sfc_routes.specs.PeerRoutes.{PeerRoute};
ghost use Rattle.sfc_routes.specs.LastWords.{Routes, Stands};
ghost use Rattle.sfc_routes.specs.RouteLists.{IsRouteList};
ghost use Rattle.path_selection.specs.Paths.{ServicePath};
ghost use Rattle.route_selection.specs.Accepted.{PathRoute, Shown};
ghost use Rattle.route_selection.specs.Names.{AreOfRoster};
ghost use Rattle.route_selection.specs.Selections.{IsSelection};
ghost use Rattle.route_selection.specs.Taken.{IsPathOf};

/// A list of routes has a selection. Want of memory is free in `select_all`, so it does not say this.
pub fn every_list_has_a_selection()
    ensures { (roster : Entries) (routes : List PeerRoute) → (table : List ServicePath) × IsSelection roster routes table }
{}

/// A list of routes has at most one selection; `select_all` gives one.
pub fn a_list_has_one_selection()
    ensures { (roster : Entries) (routes : List PeerRoute) (table other : List ServicePath) → IsRoster roster → IsRouteList routes
        → IsSelection roster routes table → IsSelection roster routes other → table ≡ other }
{}

/// Lists of the same routes have one selection.
pub fn same_routes_have_one_selection()
    ensures { (roster : Entries) (routes others : List PeerRoute) (table other : List ServicePath) → IsRoster roster
        → IsRouteList routes → IsRouteList others → ((e : PeerRoute) → Contains routes e ↔ Contains others e)
        → IsSelection roster routes table → IsSelection roster others other → table ≡ other }
{}

/// Changes with the same last word on each peer and NLRI have one selection.
pub fn last_words_have_one_selection()
    ensures { (roster : Entries) (routes others : List PeerRoute) (changes more : List RouteChange) (table other : List ServicePath)
        → IsRoster roster → IsRouteList routes → IsRouteList others → Stands routes changes → Stands others more
        → ((e : PeerRoute) → Routes changes e ↔ Routes more e)
        → IsSelection roster routes table → IsSelection roster others other → table ≡ other }
{}

/// A selection names forwarders and instances of the roster alone.
pub fn a_selection_names_the_roster()
    ensures { (roster : Entries) (routes : List PeerRoute) (table : List ServicePath) → IsSelection roster routes table
        → AreOfRoster roster table }
{}

/// Each path of a selection is that of an accepted path route with the lowest RD of its SPI, and each SPI of an accepted one has
/// a path.
pub fn the_lowest_rd_is_taken()
    ensures taken { (roster : Entries) (routes : List PeerRoute) (table : List ServicePath) (path : ServicePath)
        → IsSelection roster routes table → Contains table path → IsPathOf roster routes path }
    ensures all { (roster : Entries) (routes : List PeerRoute) (table : List ServicePath) (p : PathRoute)
        → IsSelection roster routes table → Shown roster routes p
        → (path : ServicePath) × Contains table path × (path.spi ≡ p.spi) }
{}
