//! The versions of the table that a round makes: one for each change of routes.

ghost use Rattle.std.specs.Prelude.{◌≡◌, ◌++◌, ◌∷◌, [], None, List as Sequence, OnOk};
ghost use Rattle.std.specs.List.{AllByRecursion};
ghost use Rattle.sfc_routes.specs.PeerRoutes.{IsRouteChange};
ghost use Rattle.sfc_routes.specs.declared.route_changes.RouteChange.{RouteChange as Given};
ghost use Rattle.sfc_routes.specs.LastWords.{Stands as AreAfter};
ghost use Rattle.control_histories.specs.Versions.{TableAfter};
ghost use Rattle.worker_run.specs.Publications.{Adds, AddsOne, latest};

use control_histories::table_after;
use path_selection::{Change, Table};
use sfc_routes::{Roster, RouteChange, RouteList};
use std::alloc::Global;
use std::collections::VecDeque;
use table_publish::changes_between;
use wire_base::{List, OutOfMemory};

/// The versions behind a table: for each, what it changes in the one before, and the last of them.
#[derive(Drop)]
pub(crate) struct Versions {
    alloc: Global,
    pub(crate) lists: VecDeque<List<Change>>,
    // None where there is none yet.
    pub(crate) last: Option<Table>,
}

/// The last version, or the table before all.
pub(crate) fn last_of<'a>(opening: &'a Table, last: &'a Option<Table>) -> &'a Table
    ensures { result.now ≡ latest opening.now last.now }
{
    match last {
        Some(table) => table,
        None => opening,
    }
}

impl Versions {
    /// No version yet.
    pub fn new(alloc: Global) -> Versions
        ensures { (result.lists.items ≡ []) × (result.last ≡ None) }
    {
        Versions {
            alloc,
            lists: VecDeque::new(alloc),
            last: None,
        }
    }

    /// Makes one more version: the table of these routes.
    fn add(
        &mut self,
        opening: &Table,
        roster: &Roster,
        routes: &RouteList,
    ) -> Result<(), OutOfMemory>
        ensures { (changes : Sequence Given) → AreAfter routes.now changes → OnOk result (AddsOne roster.now changes opening.now self.old self.new) }
    {
        let next = table_after(self.alloc, roster, routes)?;
        let changes = changes_between(self.alloc, last_of(opening, &self.last), &next)?;
        self.lists.push_back(changes)?;
        self.last = Some(next);
        Ok(())
    }

    /// Makes a version for each of these changes, which the routes take one after the other.
    pub fn add_all(
        &mut self,
        opening: &Table,
        roster: &Roster,
        routes: &mut RouteList,
        changes: &[RouteChange],
    ) -> Result<(), OutOfMemory>
        requires { AllByRecursion IsRouteChange changes.now }
        ensures routes { (before : Sequence Given) → AreAfter routes.old before → OnOk result (AreAfter routes.new (before ++ changes.now)) }
        ensures versions { (before : Sequence Given) → AreAfter routes.old before → TableAfter roster.now before (latest opening.now self.old.last)
            → OnOk result (Adds roster.now before changes.now opening.now self.old self.new) }
    {
        let Some((change, rest)) = changes.split_first() else {
            return Ok(());
        };
        routes.apply(change)?;
        self.add(opening, roster, routes)?;
        self.add_all(opening, roster, routes, rest)
    }
}
