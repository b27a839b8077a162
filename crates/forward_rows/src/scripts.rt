use path_selection::{Script, Table};
use std::alloc::Global;
use wire_base::{List, OutOfMemory};

/// Two tables, of this version and the next: the first answers one lookup, and the second those behind it.
pub(crate) fn script_of(
    alloc: Global,
    table: Table,
    later: Table,
    version: u32,
) -> Result<Script, OutOfMemory> {
    let first = u64::from(version);
    let mut tables = List::new(alloc);
    tables.push(table)?;
    tables.push(later)?;
    let mut picks = List::new(alloc);
    picks.push(first)?;
    picks.push(first + 1)?;
    Ok(Script::new(tables, first, picks))
}
