//! What holds of control files and of changes of routes, whatever takes them.

ghost use Rattle.std.specs.Prelude.{ℕ, List, Option};
ghost use Rattle.std.specs.List.{AllByRecursion};
ghost use Rattle.wire_base.specs.Numbers.{AreBytes};
ghost use Rattle.control_files.specs.declared.reasons.Refusal.{Refusal};
ghost use Rattle.control_files.specs.declared.segments.Segment.{Segment};
ghost use Rattle.control_files.specs.Reads.{ReadsControl};
ghost use Rattle.control_files.specs.Segments.{numbers};
ghost use Rattle.sfc_routes.specs.declared.route_changes.RouteChange.{RouteChange};
ghost use Rattle.sfc_routes.specs.Entries.{Entries};
ghost use Rattle.sfc_routes.specs.LastWords.{Stands};
ghost use Rattle.sfc_routes.specs.PeerRoutes.{IsRouteChange, PeerRoute};
ghost use Rattle.sfc_routes.specs.RouteLists.{IsRouteList};
ghost use Rattle.path_selection.specs.Paths.{ServicePath};
ghost use Rattle.control_histories.specs.Versions.{TableAfter};
ghost use Rattle.history_laws.specs.Histories.{IsHistory};

use route_selection::every_list_has_a_selection;

/// The segments that a reader of a control file gets are a history, also where the file is refused behind them.
pub fn a_control_file_is_a_history()
    ensures { (peers : List (ℕ × ℕ)) (bytes : List ℕ) (segments : List Segment) (stop : Option Refusal) → AreBytes bytes
        → ReadsControl bytes (numbers peers) segments stop → IsHistory peers segments }
{}

/// The routes that stand after changes are a list.
pub fn every_list_of_changes_has_routes()
    ensures { (changes : List RouteChange) → AllByRecursion IsRouteChange changes
        → (routes : List PeerRoute) × IsRouteList routes × Stands routes changes }
{}

/// Every list of changes that a list of routes takes has a table. Want of memory is free where a table is made, so
/// `table_after` does not say this.
pub fn every_list_of_changes_has_a_table()
    ensures { (roster : Entries) (changes : List RouteChange) → AllByRecursion IsRouteChange changes
        → (table : List ServicePath) × TableAfter roster changes table }
{
    every_list_of_changes_has_routes();
    every_list_has_a_selection();
}
