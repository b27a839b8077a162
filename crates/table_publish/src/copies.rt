//! Copies of tables with rows of their own.

ghost use Rattle.std.specs.Prelude.{◌≡◌, IfOk};
ghost use Rattle.table_publish.specs.Publications.{changed_by};

use path_selection::{Change, HopRow, Path, Table};
use std::alloc::Global;
use wire_base::{List, OutOfMemory};

fn copy_rows(alloc: Global, rows: &[HopRow]) -> Result<List<HopRow>, OutOfMemory>
    ensures { IfOk result (λ copy. copy ≡ rows.now) }
{
    let mut copy = List::new(alloc);
    for row in rows {
        copy.push(*row)?;
    }
    Ok(copy)
}

pub fn copy_path(alloc: Global, path: &Path) -> Result<Path, OutOfMemory>
    ensures { IfOk result (λ copy. copy ≡ path.now) }
{
    let rows = copy_rows(alloc, path.rows())?;
    let Some(copy) = Path::of(path.spi(), rows) else {
        unreachable!()
    };
    Ok(copy)
}

fn copy_change(alloc: Global, change: &Change) -> Result<Change, OutOfMemory>
    ensures { IfOk result (λ copy. copy ≡ change.now) }
{
    match change {
        Change::Put(path) => Ok(Change::Put(copy_path(alloc, path)?)),
        Change::Cut(spi) => Ok(Change::Cut(*spi)),
    }
}

/// The same table.
pub fn copy_table(alloc: Global, table: &Table) -> Result<Table, OutOfMemory>
    ensures { IfOk result (λ copy. copy ≡ table.now) }
{
    let mut copy = Table::empty(alloc);
    for i in 0..table.len() {
        copy.apply(Change::Put(copy_path(alloc, table.path(i))?))?;
    }
    Ok(copy)
}

/// The table with the changes made, in order.
pub fn copy_changed(alloc: Global, table: &Table, changes: &[Change]) -> Result<Table, OutOfMemory>
    ensures { IfOk result (λ copy. copy ≡ changed_by table.now changes.now) }
{
    let mut copy = copy_table(alloc, table)?;
    for change in changes {
        copy.apply(copy_change(alloc, change)?)?;
    }
    Ok(copy)
}
