//! Texts of records.

ghost use Rattle.std.specs.List.{All};
ghost use Rattle.record_text.specs.Lines.{IsEntry};

use record_text::{Record, RecordsFault, append_record, parse_record, parse_records, print_record};
use sfc_routes::Roster;
use std::alloc::Global;
use wire_base::{Bytes, List, OutOfMemory};

/// Appends the parts of an entry.
fn push_entry(
    alloc: Global,
    out: &mut Bytes,
    number: u64,
    record: &Record,
) -> Result<(), OutOfMemory> {
    let path = match record.path {
        Some(spi) => Some(spi.number()),
        None => None,
    };
    let text = format!(in alloc;
        "  {}: worker {}, path {:?}, versions {:?}, visits {:?}, end {:?}\n",
        number,
        record.worker,
        path,
        record.versions.as_slice(),
        record.visits.as_slice(),
        record.end,
    )?;
    out.push_all(text.as_bytes())
}

/// Whether the printed line of an entry spells it, read by itself.
fn is_line_again(alloc: Global, entry: &(u64, Record), roster: &Roster) -> Result<bool, OutOfMemory>
    requires { IsEntry roster.now entry.now }
{
    let line = print_record(alloc, entry.0, &entry.1, roster)?;
    let Some(line) = line.as_slice().strip_suffix(b"\n") else {
        return Ok(false);
    };
    match parse_record(line, roster) {
        Some(again) => Ok(again.0 == entry.0),
        None => Ok(false),
    }
}

/// Appends an entry, and its line behind those printed so far.
fn push_line(
    alloc: Global,
    out: &mut Bytes,
    printed: &mut Bytes,
    entry: &(u64, Record),
    roster: &Roster,
) -> Result<(), OutOfMemory>
    requires { IsEntry roster.now entry.now }
{
    let copy = entry.1.copy();
    push_entry(alloc, out, entry.0, &copy)?;
    append_record(printed, entry.0, &entry.1, roster)?;
    if !is_line_again(alloc, entry, roster)? {
        out.push_all(b"  NOT READ AGAIN\n")?;
    }
    Ok(())
}

/// Appends the entries, and puts their lines behind each other.
fn push_entries(
    alloc: Global,
    out: &mut Bytes,
    printed: &mut Bytes,
    entries: &[(u64, Record)],
    roster: &Roster,
) -> Result<(), OutOfMemory>
    requires { All (IsEntry roster.now) entries.now }
{
    for entry in entries {
        push_line(alloc, out, printed, entry, roster)?;
    }
    Ok(())
}

/// Appends the entries, and whether their lines are the text again.
fn push_read(
    alloc: Global,
    out: &mut Bytes,
    text: &[u8],
    entries: &List<(u64, Record)>,
    roster: &Roster,
) -> Result<(), OutOfMemory>
    requires { All (IsEntry roster.now) entries.now }
{
    let mut printed = Bytes::new(alloc);
    push_entries(alloc, out, &mut printed, entries.as_slice(), roster)?;
    if printed.as_slice() == text {
        out.push_all(b"  printed as read\n")
    } else {
        out.push_all(b"  NOT PRINTED AS READ\n")
    }
}

/// Appends what a text shows as records.
pub(crate) fn push_records(
    alloc: Global,
    out: &mut Bytes,
    text: &[u8],
    roster: &Roster,
) -> Result<(), OutOfMemory> {
    match parse_records(alloc, text, roster) {
        Ok(entries) => push_read(alloc, out, text, &entries, roster),
        Err(RecordsFault::Line(n)) => {
            let text = format!(in alloc; "  refused at line {n}\n")?;
            out.push_all(text.as_bytes())
        }
        Err(RecordsFault::OutOfMemory) => Err(OutOfMemory),
    }
}
