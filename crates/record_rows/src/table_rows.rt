//! Texts of tables.

ghost use Rattle.std.specs.Prelude.{IsTrue};
ghost use Rattle.std.specs.List.{All};
ghost use Rattle.record_text.specs.Tables.{ChoiceNames, PathNames, TableNames};

use path_selection::{Change, HopRow, Path, Table};
use record_text::print_table;
use sfc_routes::Roster;
use std::alloc::Global;
use text_words::{Pieces, read_number};
use wire_base::{Bytes, ForwarderId, InstanceId, List, OutOfMemory, Spi};

/// `SI:FORWARDER:INSTANCE` or `SI:-`.
fn hop(word: &[u8]) -> Option<HopRow> {
    let mut parts = Pieces::of(word, b':');
    let si = parts.next_number(0, 255)? as u8;
    let served = parts.next()?;
    if served[..] == b"-"[..] {
        return Some(HopRow { si, choice: None });
    }
    let forwarder = read_number(served, 0, 255)? as u8;
    let instance = parts.next_number(0, 65_535)? as u16;
    Some(HopRow {
        si,
        choice: Some((ForwarderId(forwarder), InstanceId(instance))),
    })
}

/// `SPI/HOP/HOP ..`; None where the word tells no path.
fn path_of(alloc: Global, word: &[u8]) -> Result<Option<Path>, OutOfMemory> {
    let mut parts = Pieces::of(word, b'/');
    let Some(number) = parts.next_number(0, 16_777_215) else {
        return Ok(None);
    };
    let Some(spi) = Spi::of(number as u32) else {
        return Ok(None);
    };
    let mut rows = List::new(alloc);
    'parts: while let Some(part) = parts.next() {
        match hop(part) {
            Some(row) => rows.push(row)?,
            None => return Ok(None),
        }
    }
    Ok(Path::of(spi, rows))
}

/// The table of the paths that are left; None where a word tells none.
fn table_of(alloc: Global, words: &mut Pieces) -> Result<Option<Table>, OutOfMemory> {
    let mut table = Table::empty(alloc);
    'words: while let Some(word) = words.next() {
        match path_of(alloc, word)? {
            Some(path) => table.apply(Change::Put(path))?,
            None => return Ok(None),
        }
    }
    Ok(Some(table))
}

/// Whether who serves at a hop is of the roster.
fn names_choice(choice: Option<(ForwarderId, InstanceId)>, roster: &Roster) -> bool
    ensures { IsTrue result → ChoiceNames roster.now choice }
{
    match choice {
        None => true,
        Some((forwarder, instance)) => {
            usize::from(forwarder.0) < roster.forwarders()
                && usize::from(instance.0) < roster.instances()
        }
    }
}

/// Whether who serves at some hops is of the roster.
fn names_hops(rows: &[HopRow], roster: &Roster) -> bool
    ensures { IsTrue result → All (λ row. ChoiceNames roster.now row.choice) rows.now }
{
    for row in rows {
        if !names_choice(row.choice, roster) {
            return false;
        }
    }
    true
}

/// Whether who serves on a path is of the roster.
fn names_path(path: &Path, roster: &Roster) -> bool
    ensures { IsTrue result → PathNames roster.now path.now }
{
    names_hops(path.rows(), roster)
}

/// Whether who serves in a table is of the roster.
fn names_table(table: &Table, roster: &Roster) -> bool
    ensures { IsTrue result → TableNames roster.now table.now }
{
    for i in 0..table.len() {
        if !names_path(table.path(i), roster) {
            return false;
        }
    }
    true
}

/// Appends a text, its lines each behind two spaces.
fn push_lines(out: &mut Bytes, text: &[u8]) -> Result<(), OutOfMemory> {
    for line in text.split_inclusive(|byte| *byte == b'\n') {
        out.push_all(b"  ")?;
        out.push_all(line)?;
    }
    Ok(())
}

/// Appends the text of a table.
pub(crate) fn push_table(
    alloc: Global,
    out: &mut Bytes,
    input: &[u8],
    roster: &Roster,
) -> Result<(), OutOfMemory> {
    let mut words = Pieces::of(input, b' ');
    let Some(version) = words.next_number(0, u64::MAX) else {
        return out.push_all(b"  ?\n");
    };
    let Some(table) = table_of(alloc, &mut words)? else {
        return out.push_all(b"  ?\n");
    };
    if !names_table(&table, roster) {
        return out.push_all(b"  ?\n");
    }
    let text = print_table(alloc, version, &table, roster)?;
    push_lines(out, text.as_slice())
}
