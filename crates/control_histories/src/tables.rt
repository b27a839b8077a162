//! The table of a list of routes, by the changes that made the list.

ghost use Rattle.std.specs.Prelude.{List, IfOk};
ghost use Rattle.sfc_routes.specs.declared.route_changes.RouteChange.{RouteChange};
ghost use Rattle.sfc_routes.specs.LastWords.{Stands};
ghost use Rattle.sfc_routes.specs.RouteLists.{IsRouteList};
ghost use Rattle.control_histories.specs.Versions.{TableAfter};

use path_selection::Table;
use route_selection::select_all;
use sfc_routes::{Roster, RouteList};
use std::alloc::Global;
use wire_base::OutOfMemory;

/// The order of a list, as its count tells it.
fn list_is_kept(routes: &RouteList)
    ensures { IsRouteList routes.now }
{
    routes.len();
}

/// The table of the routes, from scratch: that of the changes that the list of routes took.
pub fn table_after(alloc: Global, roster: &Roster, routes: &RouteList) -> Result<Table, OutOfMemory>
    ensures { (changes : List RouteChange) → Stands routes.now changes → IfOk result (λ table. TableAfter roster.now changes table) }
{
    list_is_kept(routes);
    let table = select_all(alloc, roster, routes)?;
    Ok(table)
}
