//! The table that routes give.

ghost use Rattle.std.specs.Prelude.{◌≡◌, ◌<◌, List, [], ◌∷◌, ◌++◌, map, IfOk, OnOk};
ghost use Rattle.std.specs.List.{AllByRecursion};
ghost use Rattle.sfp_attribute.specs.Sfps.{SfpFits};
ghost use Rattle.route_selection.specs.Lowest.{Ascends};
ghost use Rattle.route_selection.specs.Usable.{name_of};
ghost use Rattle.route_selection.specs.Accepted.{PathRoute, firsts};
ghost use Rattle.route_selection.specs.Selections.{IsSelection, path_at};

use crate::accepted_routes::accepted_in;
use crate::candidates::Candidate;
use crate::path_routes::PathEntry;
use crate::selected_paths::path_at;
use crate::usable_routes::usable_in;
use path_selection::{Change, Table};
use sfc_routes::{Roster, RouteList};
use std::alloc::Global;
use wire_base::OutOfMemory;

/// Puts the path of a path route behind those of smaller SPIs.
fn put_path(
    alloc: Global,
    table: &mut Table,
    usable: &[Candidate],
    entry: &PathEntry<'_>,
) -> Result<(), OutOfMemory>
    requires in_order { Ascends name_of usable.now }
    requires fits { SfpFits entry.now.sfp }
    requires behind { AllByRecursion (λ path. path.spi < entry.now.spi) table.old }
    ensures { OnOk result (table.new ≡ table.old ++ path_at usable.now entry.now ∷ []) }
{
    let path = path_at(alloc, usable, entry)?;
    table.apply(Change::Put(path))?;
    Ok(())
}

/// Puts the path of a path route, unless its SPI is below the least; which SPI is the least then.
fn take_path(
    alloc: Global,
    table: &mut Table,
    least: u32,
    usable: &[Candidate],
    entry: &PathEntry<'_>,
) -> Result<u32, OutOfMemory>
    requires in_order { Ascends name_of usable.now }
    requires fits { SfpFits entry.now.sfp }
    requires below { AllByRecursion (λ path. path.spi < least) table.old }
    ensures paths { IfOk result (λ more. (rest : List PathRoute) → table.new ++ map (path_at usable.now) (firsts more rest) ≡ table.old ++ map (path_at usable.now) (firsts least (entry.now ∷ rest))) }
    ensures below { IfOk result (λ more. AllByRecursion (λ path. path.spi < more) table.new) }
{
    let spi = entry.spi.number();
    if spi < least {
        return Ok(least);
    }
    put_path(alloc, table, usable, entry)?;
    Ok(spi + 1)
}

/// The paths of the first path route of each SPI.
fn table_of(
    alloc: Global,
    usable: &[Candidate],
    accepted: &[PathEntry<'_>],
) -> Result<Table, OutOfMemory>
    requires in_order { Ascends name_of usable.now }
    requires fits { AllByRecursion (λ p. SfpFits p.sfp) accepted.now }
    ensures { IfOk result (λ table. table ≡ map (path_at usable.now) (firsts 0 accepted.now)) }
{
    let mut table = Table::empty(alloc);
    let mut least = 0;
    for entry in accepted {
        least = take_path(alloc, &mut table, least, usable, entry)?;
    }
    Ok(table)
}

/// The table of the routes: for each SPI with an accepted path route the path of the one with the lowest RD, whose hops are
/// each served by the candidate of number `(SPI + SI) mod n` of its n candidates, in order of type, then RD, counted from 0. An
/// instance route is usable where its targets are accepted, its next hop is a forwarder's address, and its RD and type are an
/// instance's; a path route is accepted where its targets are. Of several peers' routes of one NLRI that are usable or
/// accepted, that of the lowest peer counts.
pub fn select_all(alloc: Global, roster: &Roster, routes: &RouteList) -> Result<Table, OutOfMemory>
    ensures { IfOk result (λ table. IsSelection roster.now routes.now table) }
{
    let usable = usable_in(alloc, roster, routes)?;
    let accepted = accepted_in(alloc, roster, routes)?;
    table_of(alloc, usable.as_slice(), accepted.as_slice())
}
