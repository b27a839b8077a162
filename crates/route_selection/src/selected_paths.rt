//! The path of an accepted path route.

ghost use Rattle.std.specs.Prelude.{◌≡◌, IfOk};
ghost use Rattle.sfp_attribute.specs.Sfps.{SfpFits};
ghost use Rattle.route_selection.specs.Lowest.{Ascends};
ghost use Rattle.route_selection.specs.Usable.{name_of};
ghost use Rattle.route_selection.specs.Selections.{path_at, path_rows};

use crate::candidates::Candidate;
use crate::choices::row_at;
use crate::path_routes::PathEntry;
use path_selection::{HopRow, Path};
use sfp_attribute::Part;
use std::alloc::Global;
use wire_base::{List, OutOfMemory, Spi};

/// One row for each hop among the parts of an SFP attribute.
fn path_rows(
    alloc: Global,
    usable: &[Candidate],
    spi: Spi,
    parts: &[Part],
) -> Result<List<HopRow>, OutOfMemory>
    requires { Ascends name_of usable.now }
    ensures { IfOk result (λ rows. rows ≡ path_rows usable.now spi parts.now) }
{
    let mut rows = List::new(alloc);
    for part in parts {
        match part {
            Part::Association { .. } => {}
            Part::Hop { si, parts } => {
                let row = row_at(alloc, usable, spi, *si, parts.as_slice())?;
                rows.push(row)?;
            }
            Part::Other { .. } => {}
        }
    }
    Ok(rows)
}

/// The path of a path route.
pub(crate) fn path_at(
    alloc: Global,
    usable: &[Candidate],
    entry: &PathEntry<'_>,
) -> Result<Path, OutOfMemory>
    requires in_order { Ascends name_of usable.now }
    requires fits { SfpFits entry.now.sfp }
    ensures { IfOk result (λ path. path ≡ path_at usable.now entry.now) }
{
    let rows = path_rows(alloc, usable, entry.spi, entry.sfp.parts.as_slice())?;
    match Path::of(entry.spi, rows) {
        Some(path) => Ok(path),
        None => unreachable!(),
    }
}
