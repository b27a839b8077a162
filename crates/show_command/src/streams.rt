//! `show bgp`: the lines of a stream go to Report as the stream is read.

ghost use Rattle.std.specs.Prelude.{◌≡◌, ℕ, ◌+◌, ◌^◌, ◌<◌, ◌≤◌, true, List, ◌++◌, length, OnOk, IsErrOf};
ghost use Rattle.sfc_desk.specs.Desks.{Rose, Moves};
ghost use Rattle.sfc_texts.specs.BgpText.{ShowsBgp};
ghost use Rattle.sfc_texts.specs.Showings.{Stands};
ghost use Rattle.commands.specs.Fronts.{IsFrontBehind};
ghost use Rattle.commands.specs.Pieces.{SameCounts};
ghost use Rattle.show_command.specs.declared.show_words.Format.TheVariants.{Bgp};
ghost use Rattle.show_command.specs.ShowSteps.{GaveLines, ShowsSource};

use crate::sources::{next_piece, piece_room};
use commands::{ReadFault, Status, WriteFault, report};
use sfc_desk::{Desk, Port};
use sfc_texts::StreamLines;
use std::alloc::Global;
use wire_base::{Bytes, OutOfMemory};

/// Takes the next piece of the stream, and appends the lines that are there.
fn take_piece(lines: &mut StreamLines, out: &mut Bytes, piece: &[u8]) -> Result<(), OutOfMemory>
    requires { lines.old.place + length lines.old.rest + length piece.now < 2 ^ 64 }
    ensures history { (taken front : List ℕ) → Stands lines.old taken (front ++ out.old)
        → OnOk result (Stands lines.new (taken ++ piece.now) (front ++ out.new)) }
    ensures count { OnOk result (lines.new.place + length lines.new.rest
        ≤ lines.old.place + length lines.old.rest + length piece.now) }
{
    lines.push(piece)?;
    lines.drain(out)
}

/// Takes the next piece of the stream, and writes the lines that are there.
fn show_piece<D: Desk>(
    desk: &mut D,
    lines: &mut StreamLines,
    out: &mut Bytes,
    piece: &[u8],
) -> Result<(), WriteFault>
    requires { lines.old.place + length lines.old.rest + length piece.now < 2 ^ 64 }
    ensures goes_on { D.tells ≡ true → (taken before : List ℕ)
        → GaveLines lines.old taken before (D.at desk.old Port.Report).written
        → OnOk result (GaveLines lines.new (taken ++ piece.now) before (D.at desk.new Port.Report).written) }
    ensures front { D.tells ≡ true → (taken before left text : List ℕ)
        → GaveLines lines.old taken before (D.at desk.old Port.Report).written
        → ShowsBgp (taken ++ (piece.now ++ left)) text
        → IsFrontBehind before (D.at desk.new Port.Report).written text }
    ensures count { OnOk result (lines.new.place + length lines.new.rest
        ≤ lines.old.place + length lines.old.rest + length piece.now) }
    ensures cause { IsErrOf result WriteFault.File → Rose (D.at desk.old Port.Report) (D.at desk.new Port.Report) }
    ensures quiet { OnOk result (SameCounts (D.at desk.old) (D.at desk.new)) }
    ensures spared { IsErrOf result WriteFault.OutOfMemory → SameCounts (D.at desk.old) (D.at desk.new) }
    ensures moves { Moves D.tells Port.Report (D.held desk.old) (D.held desk.new) (D.at desk.old) (D.at desk.new) }
{
    out.clear();
    take_piece(lines, out, piece)?;
    report(desk, out.as_slice())?;
    Ok(())
}

/// Writes the last lines of the stream, which has ended.
fn show_end<D: Desk>(
    desk: &mut D,
    lines: &mut StreamLines,
    out: &mut Bytes,
) -> Result<(), WriteFault>
    ensures whole { D.tells ≡ true → (taken before : List ℕ)
        → GaveLines lines.old taken before (D.at desk.old Port.Report).written
        → OnOk result ((text : List ℕ) × ShowsBgp taken text × ((D.at desk.new Port.Report).written ≡ before ++ text)) }
    ensures front { D.tells ≡ true → (taken before text : List ℕ)
        → GaveLines lines.old taken before (D.at desk.old Port.Report).written → ShowsBgp taken text
        → IsFrontBehind before (D.at desk.new Port.Report).written text }
    ensures cause { IsErrOf result WriteFault.File → Rose (D.at desk.old Port.Report) (D.at desk.new Port.Report) }
    ensures quiet { OnOk result (SameCounts (D.at desk.old) (D.at desk.new)) }
    ensures spared { IsErrOf result WriteFault.OutOfMemory → SameCounts (D.at desk.old) (D.at desk.new) }
    ensures moves { Moves D.tells Port.Report (D.held desk.old) (D.held desk.new) (D.at desk.old) (D.at desk.new) }
{
    out.clear();
    lines.finish(out)?;
    report(desk, out.as_slice())?;
    Ok(())
}

/// Shows the stream that the bound source holds.
pub(crate) fn show_stream<D: Desk>(alloc: Global, desk: &mut D) -> Status
    requires source { (D.at desk.old Port.Source).bound ≡ true }
    ensures { ShowsSource Bgp D.tells (D.at desk.old) (D.at desk.new) result }
{
    let Ok(mut piece) = piece_room(alloc) else {
        return Status::Memory;
    };
    let mut lines = StreamLines::new(alloc);
    let mut out = Bytes::new(alloc);
    let mut total = 0;
    'pieces: loop {
        let count = match next_piece(desk, &mut piece, total) {
            Ok(count) => count,
            Err(ReadFault::File) => return Status::File(Port::Source),
            Err(ReadFault::Long) => return Status::Long(Port::Source),
            Err(ReadFault::OutOfMemory) => return Status::Memory,
        };
        if count == 0 {
            break;
        }
        match show_piece(desk, &mut lines, &mut out, &piece[..count]) {
            Ok(()) => {}
            Err(WriteFault::File) => return Status::File(Port::Report),
            Err(WriteFault::OutOfMemory) => return Status::Memory,
        }
        total += count as u64;
    }
    match show_end(desk, &mut lines, &mut out) {
        Ok(()) => Status::Ok,
        Err(WriteFault::File) => Status::File(Port::Report),
        Err(WriteFault::OutOfMemory) => Status::Memory,
    }
}
