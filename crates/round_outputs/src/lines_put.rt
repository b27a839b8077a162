//! The lines of a batch.

ghost use Rattle.std.specs.Prelude.{◌≡◌, ◌+◌, ◌<◌, ◌++◌, true, length, IfOk, OnOk, IsErrOf};
ghost use Rattle.std.specs.List.{HoldsAt};
ghost use Rattle.sfc_desk.specs.Desks.{Rose, Moves};
ghost use Rattle.record_text.specs.Lines.{ended_line};
ghost use Rattle.commands.specs.Fronts.{IsFront};
ghost use Rattle.commands.specs.Pieces.{SameCounts};
ghost use Rattle.worker_run.specs.Batches.{records_in};
ghost use Rattle.worker_run.specs.Outputs.{lines_from};
ghost use Rattle.round_outputs.specs.RoundOutputs.{AreNamed, Puts};

use commands::{Output, WriteFault};
use record_text::append_record;
use sfc_desk::Desk;
use sfc_routes::Roster;
use wire_base::{Bytes, OutOfMemory};
use worker_run::Batch;

/// The number of a frame. No run has 2^64 of them.
fn number_of(place: u64, i: usize) -> Result<u64, OutOfMemory>
    ensures { IfOk result (λ number. number ≡ place + i) }
{
    match place.checked_add(i as u64) {
        Some(number) => Ok(number),
        None => Err(OutOfMemory),
    }
}

/// Puts the line of the record at a place.
fn put_line<D: Desk>(
    desk: &mut D,
    lines: &mut Output,
    text: &mut Bytes,
    roster: &Roster,
    place: u64,
    batch: &Batch,
    i: usize,
) -> Result<(), WriteFault>
    requires bound { (D.at desk.old lines.old.port).bound ≡ true }
    requires named { AreNamed roster.now batch.now }
    requires there { i < length batch.now }
    ensures { HoldsAt (λ c. Puts D.tells (D.at desk.old) (D.at desk.new) (D.held desk.old) (D.held desk.new) lines.old lines.new result
        (ended_line roster.now (place + i, c.outcome))) batch.now i }
{
    let Ok(number) = number_of(place, i) else {
        return Err(WriteFault::OutOfMemory);
    };
    text.clear();
    if append_record(text, number, batch.end_of(i), roster).is_err() {
        return Err(WriteFault::OutOfMemory);
    }
    lines.put(desk, text.as_slice())
}

/// Puts the lines of all records.
fn put_all<D: Desk>(
    desk: &mut D,
    lines: &mut Output,
    text: &mut Bytes,
    roster: &Roster,
    place: u64,
    batch: &Batch,
) -> Result<(), WriteFault>
    requires bound { (D.at desk.old lines.old.port).bound ≡ true }
    requires named { AreNamed roster.now batch.now }
    ensures { Puts D.tells (D.at desk.old) (D.at desk.new) (D.held desk.old) (D.held desk.new) lines.old lines.new result
        (lines_from roster.now place (records_in batch.now)) }
{
    for i in 0..batch.len() {
        if let Err(fault) = put_line(desk, lines, text, roster, place, batch, i) {
            return Err(fault);
        }
    }
    Ok(())
}

/// Appends a line for each record of a batch, in order, to what the port took and what waits. They are numbered from `place` on, and name
/// instances as the roster does.
///
/// Each line is made in `text`, whose bytes do not matter, before or after. There are fewer than 2^64 lines; past that the answer is
/// want of memory.
pub fn put_lines<D: Desk>(
    desk: &mut D,
    lines: &mut Output,
    text: &mut Bytes,
    roster: &Roster,
    place: u64,
    batch: &Batch,
) -> Result<(), WriteFault>
    requires bound { (D.at desk.old lines.old.port).bound ≡ true }
    requires named { AreNamed roster.now batch.now }
    ensures port { lines.new.port ≡ lines.old.port }
    ensures ok { D.tells ≡ true → OnOk result ((D.at desk.new lines.old.port).written ++ lines.new.bytes
        ≡ ((D.at desk.old lines.old.port).written ++ lines.old.bytes) ++ lines_from roster.now place (records_in batch.now)) }
    ensures front { D.tells ≡ true → IsFront (D.at desk.new lines.old.port).written
        (((D.at desk.old lines.old.port).written ++ lines.old.bytes) ++ lines_from roster.now place (records_in batch.now)) }
    ensures cause { IsErrOf result WriteFault.File → Rose (D.at desk.old lines.old.port) (D.at desk.new lines.old.port) }
    ensures quiet { OnOk result (SameCounts (D.at desk.old) (D.at desk.new)) }
    ensures spared { IsErrOf result WriteFault.OutOfMemory → SameCounts (D.at desk.old) (D.at desk.new) }
    ensures moves { Moves D.tells lines.old.port (D.held desk.old) (D.held desk.new) (D.at desk.old) (D.at desk.new) }
{
    put_all(desk, lines, text, roster, place, batch)
}
