//! What a walk shows.

ghost use Rattle.std.specs.Prelude.{◌-◌, ◌<◌, ◌^◌};

use crate::frame_rows::FrameRow;
use crate::known_names::names_are_known;
use forwarder::Workspace;
use path_selection::Tables;
use record_text::{Record, append_record};
use sfc_config::Setup;
use sfc_routes::Roster;
use std::alloc::Global;
use text_words::{print_number, print_octets};
use wire_base::{Bytes, OutOfMemory};

/// The most bytes of which the digits are shown.
const SHOWN: usize = 160;

/// Appends the line of a record, by numbers where it names an instance that the roster does not have.
fn push_record(
    alloc: Global,
    out: &mut Bytes,
    number: u64,
    record: &Record,
    roster: &Roster,
) -> Result<(), OutOfMemory> {
    if names_are_known(record, roster) {
        return append_record(out, number, record, roster);
    }
    let text = format!(in alloc;
        "{number} versions={:?} visits={:?} end={:?}\n",
        record.versions.as_slice(),
        record.visits.as_slice(),
        record.end,
    )?;
    out.push_all(text.as_bytes())
}

/// Forwards a frame, and appends the line of its record.
pub(crate) fn push_line<T: Tables>(
    alloc: Global,
    out: &mut Bytes,
    setup: &Setup,
    tables: &mut T,
    work: &mut Workspace,
    number: u64,
    frame: &FrameRow,
) -> Result<(), OutOfMemory>
    requires { T.refused tables.old < 2 ^ 64 - 1 }
{
    match frame.forward(setup, tables, work) {
        Some(record) => push_record(alloc, out, number, &record, &setup.roster),
        None => out.push_all(b"?\n"),
    }
}

/// Appends how many bytes these are, and their digits.
fn push_bytes(out: &mut Bytes, bytes: &[u8]) -> Result<(), OutOfMemory> {
    print_number(out, bytes.len() as u64)?;
    out.push_all(b" ")?;
    print_octets(out, bytes.get(..SHOWN).unwrap_or(bytes))?;
    out.push_all(b"\n")
}

/// Appends the packets that were handed from one forwarder to another.
fn push_packets(out: &mut Bytes, work: &Workspace) -> Result<(), OutOfMemory> {
    for i in 0..work.trace_len() {
        out.push_all(b"  packet ")?;
        push_bytes(out, work.trace(i))?;
    }
    Ok(())
}

/// Appends the frame that a walk left, and the packets of the walk.
fn push_left(out: &mut Bytes, work: &Workspace) -> Result<(), OutOfMemory> {
    out.push_all(b"  frame ")?;
    print_number(out, u64::from(work.original()))?;
    out.push_all(b" ")?;
    push_bytes(out, work.frame())?;
    push_packets(out, work)
}

/// Forwards a frame, and appends all that its walk shows.
pub(crate) fn push_walk<T: Tables>(
    alloc: Global,
    out: &mut Bytes,
    setup: &Setup,
    tables: &mut T,
    work: &mut Workspace,
    number: u64,
    frame: &FrameRow,
) -> Result<(), OutOfMemory>
    requires { T.refused tables.old < 2 ^ 64 - 1 }
{
    let Some(record) = frame.forward(setup, tables, work) else {
        return out.push_all(b"  ?\n");
    };
    out.push_all(b"  ")?;
    push_record(alloc, out, number, &record, &setup.roster)?;
    push_left(out, work)
}
