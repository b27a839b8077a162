//! The rows that open a window.

ghost use Rattle.std.specs.Prelude.{◌≤◌};

use crate::desks::Desk;
use crate::faults::Fault;
use crate::looks::look_once;
use crate::open_windows::open_window;
use crate::paths::put_path;
use crate::words::{next_number, next_path, next_spi};
use path_selection::Table;
use std::alloc::Global;
use std::str::SplitWhitespace;
use std::sync::Wait;
use table_publish::{Seat, Window, close};
use wire_base::{List, OutOfMemory, Spi};

/// `begin VERSION N SPI ..`
pub(crate) fn begin<R: Print + Wait>(
    rt: &R,
    desk: &mut Desk,
    mut words: SplitWhitespace,
) -> anyhow::Result<bool> {
    let Some(version) = next_number(&mut words, 0, u64::MAX) else {
        return Ok(false);
    };
    let Some(number) = next_path(&mut words) else {
        return Ok(false);
    };
    let table = table_of(desk.alloc, number, words).map_err(Fault::from)?;
    match open_window(rt, desk.alloc, &table, version).map_err(Fault::from)? {
        None => println!(rt; "  fewer seats than two")?,
        Some(window) => desk.open(rt, window),
    }
    desk.table = table;
    Ok(true)
}

/// The table of the paths by a number.
fn table_of(alloc: Global, number: u8, mut words: SplitWhitespace) -> Result<Table, OutOfMemory> {
    let mut table = Table::empty(alloc);
    for _ in 0..u64::MAX {
        let Some(spi) = next_spi(&mut words) else {
            break;
        };
        put_path(alloc, &mut table, spi, number)?;
    }
    Ok(table)
}

/// `seats COUNT VERSION N SPI`
pub(crate) fn seats<R: Print + Wait>(
    rt: &R,
    alloc: Global,
    mut words: SplitWhitespace,
) -> anyhow::Result<bool> {
    let Some(count) = next_number(&mut words, 1, 16) else {
        return Ok(false);
    };
    let Some(version) = next_number(&mut words, 0, u64::MAX) else {
        return Ok(false);
    };
    let Some(number) = next_path(&mut words) else {
        return Ok(false);
    };
    let Some(spi) = next_spi(&mut words) else {
        return Ok(false);
    };
    let mut table = Table::empty(alloc);
    put_path(alloc, &mut table, spi, number).map_err(Fault::from)?;
    show_seats(rt, alloc, &table, version, count as usize, spi)?;
    Ok(true)
}

/// Opens a window with so many seats, looks up from each that there is, and closes it.
fn show_seats<R: Print + Wait>(
    rt: &R,
    alloc: Global,
    table: &Table,
    version: u64,
    count: usize,
    spi: Spi,
) -> anyhow::Result<()>
    requires { (1 ≤ count) × (count ≤ 16) }
{
    let (publisher, seats) = Window::begin(rt, alloc, table, version, count).map_err(Fault::from)?;
    let shown = show_each(rt, seats, spi);
    let closed = close(rt, publisher, List::new(alloc));
    shown?;
    closed.map_err(Fault::from)?;
    Ok(())
}

fn show_each<R: Print>(rt: &R, mut seats: List<Seat>, spi: Spi) -> anyhow::Result<()> {
    for _ in 0..16 {
        let Some(mut seat) = seats.pop() else {
            break;
        };
        println!(rt; "  {:?}", look_once(&mut seat, spi, 255)?)?;
    }
    Ok(())
}
