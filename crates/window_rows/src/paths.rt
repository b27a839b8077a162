//! The paths of rows: three hops at one forwarder, by a number.

use path_selection::{Answer, Change, HopRow, Path, Table};
use std::alloc::Global;
use wire_base::{ForwarderId, InstanceId, List, OutOfMemory, Spi};

fn hop(si: u8, number: u8) -> HopRow {
    HopRow {
        si,
        choice: Some((
            ForwarderId(number),
            InstanceId(10 * u16::from(number) + u16::from(255 - si)),
        )),
    }
}

/// The path by a number. There is one.
pub(crate) fn path_by(alloc: Global, spi: Spi, number: u8) -> Result<Option<Path>, OutOfMemory> {
    let mut rows = List::new(alloc);
    rows.push(hop(255, number))?;
    rows.push(hop(254, number))?;
    rows.push(hop(253, number))?;
    Ok(Path::of(spi, rows))
}

/// Puts the path by a number into a table.
pub(crate) fn put_path(
    alloc: Global,
    table: &mut Table,
    spi: Spi,
    number: u8,
) -> Result<(), OutOfMemory> {
    match path_by(alloc, spi, number)? {
        None => Ok(()),
        Some(path) => table.apply(Change::Put(path)),
    }
}

/// The number of a version.
fn number_of(version: u64) -> u8 {
    (version % 200) as u8
}

/// A list that puts one path, by the number of its version.
pub(crate) fn list_of(alloc: Global, spi: Spi, version: u64) -> Result<List<Change>, OutOfMemory> {
    let mut changes = List::new(alloc);
    if let Some(path) = path_by(alloc, spi, number_of(version))? {
        changes.push(Change::Put(path))?;
    }
    Ok(changes)
}

/// The first hop of a path by the number of its version.
pub(crate) fn answer_of(version: u64) -> Answer {
    let number = number_of(version);
    Answer::At(255, ForwarderId(number), InstanceId(10 * u16::from(number)))
}
