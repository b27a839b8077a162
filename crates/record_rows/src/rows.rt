//! A row, and what answers it.

use crate::input_texts::bytes_of;
use crate::record_rows::push_records;
use crate::rosters::add_named;
use crate::table_rows::push_table;
use sfc_routes::Roster;
use std::alloc::Global;
use wire_base::{Bytes, OutOfMemory};

/// Adds a name to the roster, and appends whether it was.
fn push_named(
    out: &mut Bytes,
    roster: &mut Roster,
    is_forwarder: bool,
    word: &str,
) -> Result<(), OutOfMemory> {
    if add_named(roster, is_forwarder, word)? {
        out.push_all(b"  added\n")
    } else {
        out.push_all(b"  ?\n")
    }
}

/// What a row shows.
fn push_shown(
    alloc: Global,
    out: &mut Bytes,
    roster: &mut Roster,
    kind: &str,
    input: &str,
) -> Result<(), OutOfMemory> {
    match kind {
        "forwarder" => push_named(out, roster, true, input),
        "instance" => push_named(out, roster, false, input),
        "records" => {
            let text = bytes_of(alloc, input)?;
            push_records(alloc, out, text.as_slice(), roster)
        }
        "table" => push_table(alloc, out, input.as_bytes(), roster),
        _ => out.push_all(b"  ?\n"),
    }
}

/// The row, and what it shows.
pub(crate) fn answer(alloc: Global, roster: &mut Roster, row: &str) -> Result<Bytes, OutOfMemory> {
    let mut out = Bytes::copy_of(alloc, row.as_bytes())?;
    out.push_all(b"\n")?;
    let Some((kind, input)) = row.split_once(' ') else {
        return Ok(out);
    };
    if kind.starts_with('#') {
        return Ok(out);
    }
    push_shown(alloc, &mut out, roster, kind, input)?;
    Ok(out)
}
