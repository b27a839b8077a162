//! A bound input into a bound output, piece by piece.

ghost use Rattle.std.specs.Prelude.{◌≡◌, ◌≢◌, ℕ, ◌+◌, ◌^◌, ◌<◌, ◌≤◌, true, false, List, [], ◌++◌, length, IfOk, IfErr, OnOk, Err};
ghost use Rattle.sfc_desk.specs.Ports.{is_input};
ghost use Rattle.sfc_desk.specs.Desks.{Moves, Elsewhere};
ghost use Rattle.sfc_desk.specs.declared.ports.Port.{Port as DeskPort};
ghost use Rattle.commands.specs.declared.statuses.Status.TheVariants as answers;
ghost use Rattle.commands.specs.Fronts.{IsFront};
ghost use Rattle.commands.specs.Pieces.{NoneBound, SameCounts};
ghost use Rattle.frame_streams.specs.Turning.{StandsAt, Breaks, FrontOfAll, ReadStops, WriteStops, Counts, IsEither, Told, Ends, Converts, is_told as is_told_status};

use crate::converters::Converter;
use commands::{PIECE, Status, empty, read_into};
use sfc_desk::{Desk, Port};
use std::alloc::Global;

/// The most bytes that are read of an input.
const LIMIT: u64 = 1 << 40;

/// Reads a piece and hands it to the converter, and tells its length; 0 is the end.
fn read_piece<C: Converter, D: Desk>(
    desk: &mut D,
    converter: &mut C,
    input: Port,
    piece: &mut [u8],
) -> Result<usize, Status>
    requires bound { (D.at desk.old input).bound ≡ true }
    requires reads { is_input input ≡ true }
    requires few { C.count converter.old ≤ 2 ^ 40 }
    requires some { 0 < length piece.old }
    ensures goes_on { (words : C.Said) (whole written waits : List ℕ) → StandsAt C.writes words (C.said converter.old) (C.turned converter.old) (C.count converter.old) D.tells whole (D.at desk.old input).left written waits
        → OnOk result (StandsAt C.writes words (C.said converter.new) (C.turned converter.new) (C.count converter.new) D.tells whole (D.at desk.new input).left written waits) }
    ensures long { D.tells ≡ true → (words : C.Said) (whole written waits : List ℕ) → StandsAt C.writes words (C.said converter.old) (C.turned converter.old) (C.count converter.old) D.tells whole (D.at desk.old input).left written waits
        → IfErr result (λ status. status ≡ answers.Long input → 2 ^ 40 < length whole) }
    ensures end { D.tells ≡ true → IfOk result (λ n. n ≡ 0 → (D.at desk.new input).left ≡ []) }
    ensures still { IfOk result (λ n. n ≡ 0 → C.is_quiet converter.old → C.is_quiet converter.new) }
    ensures more { IfOk result (λ n. 0 < n → C.count converter.old < C.count converter.new) }
    ensures few { OnOk result (C.count converter.new ≤ 2 ^ 40) }
    ensures said { C.said converter.new ≡ C.said converter.old }
    ensures room { length piece.new ≡ length piece.old }
    ensures quiet { OnOk result (SameCounts (D.at desk.old) (D.at desk.new)) }
    ensures stops { IfErr result (ReadStops input (D.at desk.old) (D.at desk.new)) }
    ensures moves { Moves D.tells input (D.held desk.old) (D.held desk.new) (D.at desk.old) (D.at desk.new) }
{
    let Ok(count) = read_into(desk, input, piece) else {
        return Err(Status::File(input));
    };
    if count == 0 {
        return Ok(0);
    }
    match converter.push(&piece[..count]) {
        Ok(()) => {}
        Err(_) => return Err(Status::Memory),
    }
    if converter.taken() > LIMIT {
        return Err(Status::Long(input));
    }
    Ok(count)
}

/// Writes what waits, where that is wanted.
fn write_where<D: Desk>(
    desk: &mut D,
    output: Port,
    buffer: &mut Vec<u8>,
    wanted: bool,
) -> Result<(), Status>
    requires bound { (D.at desk.old output).bound ≡ true }
    requires writes { is_input output ≡ false }
    ensures ok { D.tells ≡ true → OnOk result ((D.at desk.new output).written ++ buffer.new.items
        ≡ (D.at desk.old output).written ++ buffer.old.items) }
    ensures front { D.tells ≡ true → IsFront (D.at desk.new output).written ((D.at desk.old output).written ++ buffer.old.items) }
    ensures nothing { wanted ≡ true → buffer.new.items ≡ [] }
    ensures kept { wanted ≡ false → buffer.new.items ≡ buffer.old.items }
    ensures quiet { OnOk result (SameCounts (D.at desk.old) (D.at desk.new)) }
    ensures stops { IfErr result (WriteStops output (D.at desk.old) (D.at desk.new)) }
    ensures moves { Moves D.tells output (D.held desk.old) (D.held desk.new) (D.at desk.old) (D.at desk.new) }
{
    if !wanted {
        return Ok(());
    }
    match empty(desk, output, buffer) {
        Ok(()) => Ok(()),
        Err(_) => Err(Status::File(output)),
    }
}

/// Puts what all parts come to that are at hand. What waits is written when it is a piece.
fn put_parts<C: Converter, D: Desk>(
    desk: &mut D,
    converter: &mut C,
    output: Port,
    buffer: &mut Vec<u8>,
) -> Result<(), Status>
    requires bound { (D.at desk.old output).bound ≡ true }
    requires writes { is_input output ≡ false }
    requires stands { (words : C.Said) × (whole : List ℕ) × (left : List ℕ) × StandsAt C.writes words (C.said converter.old) (C.turned converter.old) (C.count converter.old) D.tells whole left (D.at desk.old output).written buffer.old.items }
    ensures goes_on { (words : C.Said) (whole left : List ℕ) → StandsAt C.writes words (C.said converter.old) (C.turned converter.old) (C.count converter.old) D.tells whole left (D.at desk.old output).written buffer.old.items
        → OnOk result (StandsAt C.writes words (C.said converter.new) (C.turned converter.new) (C.count converter.new) D.tells whole left (D.at desk.new output).written buffer.new.items) }
    ensures at_rest { OnOk result (C.is_quiet converter.new) }
    ensures breaks { D.tells ≡ true → (words : C.Said) (whole left : List ℕ) → StandsAt C.writes words (C.said converter.old) (C.turned converter.old) (C.count converter.old) D.tells whole left (D.at desk.old output).written buffer.old.items
        → IfErr result (Breaks (C.writes words) whole ((D.at desk.new output).written ++ buffer.new.items) (D.at desk.new output).written) }
    ensures said { C.said converter.new ≡ C.said converter.old }
    ensures count { OnOk result (C.count converter.new ≡ C.count converter.old) }
    ensures quiet { OnOk result (SameCounts (D.at desk.old) (D.at desk.new)) }
    ensures broken { IfErr result (λ status. status ≢ answers.Ok) }
    ensures stops { IfErr result (Counts (λ port. port ≡ output) (λ _. ⊥) (D.at desk.old) (D.at desk.new)) }
    ensures moves { Moves D.tells output (D.held desk.old) (D.held desk.new) (D.at desk.old) (D.at desk.new) }
{
    'parts: loop {
        match converter.next(buffer) {
            Ok(true) => {}
            Ok(false) => return Ok(()),
            Err(status) => return Err(status),
        }
        let full = buffer.len() >= PIECE;
        if let Err(status) = write_where(desk, output, buffer, full) {
            return Err(status);
        }
    }
}

/// Converts the pieces to the end of the input.
fn convert_pieces<C: Converter, D: Desk>(
    desk: &mut D,
    converter: &mut C,
    input: Port,
    output: Port,
    piece: &mut [u8],
    buffer: &mut Vec<u8>,
) -> Result<(), Status>
    requires input { (D.at desk.old input).bound ≡ true }
    requires output { (D.at desk.old output).bound ≡ true }
    requires reads { is_input input ≡ true }
    requires writes { is_input output ≡ false }
    requires few { C.count converter.old ≤ 2 ^ 40 }
    requires some { 0 < length piece.old }
    requires quiet { C.is_quiet converter.old }
    requires stands { (words : C.Said) × (whole : List ℕ) × StandsAt C.writes words (C.said converter.old) (C.turned converter.old) (C.count converter.old) D.tells whole (D.at desk.old input).left (D.at desk.old output).written buffer.old.items }
    ensures goes_on { (words : C.Said) (whole : List ℕ) → StandsAt C.writes words (C.said converter.old) (C.turned converter.old) (C.count converter.old) D.tells whole (D.at desk.old input).left (D.at desk.old output).written buffer.old.items
        → OnOk result (StandsAt C.writes words (C.said converter.new) (C.turned converter.new) (C.count converter.new) D.tells whole (D.at desk.new input).left (D.at desk.new output).written buffer.new.items) }
    ensures at_rest { OnOk result (C.is_quiet converter.new) }
    ensures end { D.tells ≡ true → OnOk result ((D.at desk.new input).left ≡ []) }
    ensures breaks { D.tells ≡ true → (words : C.Said) (whole : List ℕ) → StandsAt C.writes words (C.said converter.old) (C.turned converter.old) (C.count converter.old) D.tells whole (D.at desk.old input).left (D.at desk.old output).written buffer.old.items
        → IfErr result (Breaks (C.writes words) whole ((D.at desk.new output).written ++ buffer.new.items) (D.at desk.new output).written) }
    ensures said { C.said converter.new ≡ C.said converter.old }
    ensures few { OnOk result (C.count converter.new ≤ 2 ^ 40) }
    ensures quiet { OnOk result (SameCounts (D.at desk.old) (D.at desk.new)) }
    ensures broken { IfErr result (λ status. status ≢ answers.Ok) }
    ensures stops { IfErr result (Counts (IsEither input output) (λ port. port ≡ input) (D.at desk.old) (D.at desk.new)) }
    ensures still_bound { (D.at desk.new output).bound ≡ true }
    ensures none_bound { NoneBound D.tells (D.at desk.old) (D.at desk.new) }
    ensures others { (port : DeskPort) → port ≢ input → port ≢ output → D.at desk.new port ≡ D.at desk.old port }
{
    'pieces: loop {
        let count = match read_piece(desk, converter, input, piece) {
            Ok(0) => return Ok(()),
            Ok(count) => count,
            Err(status) => return Err(status),
        };
        if let Err(status) = put_parts(desk, converter, output, buffer) {
            return Err(status);
        }
        if let Err(status) = write_where(desk, output, buffer, count < piece.len()) {
            return Err(status);
        }
    }
}

/// Converts the pieces, and tells how the input ends.
fn convert_all<C: Converter, D: Desk>(
    desk: &mut D,
    converter: &mut C,
    input: Port,
    output: Port,
    piece: &mut [u8],
    buffer: &mut Vec<u8>,
) -> Status
    requires input { (D.at desk.old input).bound ≡ true }
    requires output { (D.at desk.old output).bound ≡ true }
    requires reads { is_input input ≡ true }
    requires writes { is_input output ≡ false }
    requires few { C.count converter.old ≤ 2 ^ 40 }
    requires some { 0 < length piece.old }
    requires quiet { C.is_quiet converter.old }
    requires stands { (words : C.Said) × (whole : List ℕ) × StandsAt C.writes words (C.said converter.old) (C.turned converter.old) (C.count converter.old) D.tells whole (D.at desk.old input).left (D.at desk.old output).written buffer.old.items }
    ensures told { D.tells ≡ true → (words : C.Said) (whole : List ℕ)
        → StandsAt C.writes words (C.said converter.old) (C.turned converter.old) (C.count converter.old) D.tells whole (D.at desk.old input).left (D.at desk.old output).written buffer.old.items
        → Told (C.writes words) whole (D.at desk.new input).left ((D.at desk.new output).written ++ buffer.new.items) (D.at desk.new output).written result }
    ensures front { D.tells ≡ true → (words : C.Said) (whole : List ℕ)
        → StandsAt C.writes words (C.said converter.old) (C.turned converter.old) (C.count converter.old) D.tells whole (D.at desk.old input).left (D.at desk.old output).written buffer.old.items
        → is_told_status result ≡ true → FrontOfAll (C.writes words) whole ((D.at desk.new output).written ++ buffer.new.items) }
    ensures turned { D.tells ≡ true → (words : C.Said) (whole : List ℕ)
        → StandsAt C.writes words (C.said converter.old) (C.turned converter.old) (C.count converter.old) D.tells whole (D.at desk.old input).left (D.at desk.old output).written buffer.old.items
        → result ≡ Status.Ok → C.turned converter.new whole ((D.at desk.new output).written ++ buffer.new.items) }
    ensures at_rest { result ≡ Status.Ok → C.is_quiet converter.new }
    ensures said { C.said converter.new ≡ C.said converter.old }
    ensures counts { Counts (IsEither input output) (λ port. port ≡ input) (D.at desk.old) (D.at desk.new) result }
    ensures still_bound { (D.at desk.new output).bound ≡ true }
    ensures none_bound { NoneBound D.tells (D.at desk.old) (D.at desk.new) }
    ensures others { (port : DeskPort) → port ≢ input → port ≢ output → D.at desk.new port ≡ D.at desk.old port }
{
    match convert_pieces(desk, converter, input, output, piece, buffer) {
        Ok(()) => converter.finish(),
        Err(status) => status,
    }
}

/// Whether all that was made is to be written before it is answered so.
fn is_told(answer: Status) -> bool
    ensures { result ≡ is_told_status answer }
{
    match answer {
        Status::Ok => true,
        Status::Capture(_, _) => true,
        Status::Pcapng(_, _) => true,
        _ => false,
    }
}

/// Writes what waits where it is to be written, and answers so.
fn end_so<D: Desk>(desk: &mut D, output: Port, buffer: &mut Vec<u8>, answer: Status) -> Status
    requires bound { (D.at desk.old output).bound ≡ true }
    requires writes { is_input output ≡ false }
    ensures ends { Ends output D.tells (D.at desk.old) (D.at desk.new) buffer.old.items answer result }
    ensures none_bound { NoneBound D.tells (D.at desk.old) (D.at desk.new) }
    ensures elsewhere { Elsewhere output (D.at desk.old) (D.at desk.new) }
{
    if !is_told(answer) {
        return answer;
    }
    match empty(desk, output, buffer) {
        Ok(()) => answer,
        Err(_) => Status::File(output),
    }
}

/// Converts a bound input into a bound output that is empty: piece by piece, and what waits is written when it is a piece and each
/// time that less was read than was asked for.
///
/// Where a field of the input is refused, what was made before is written first; where the input has more bytes than 2^40, or a call
/// fails, the output holds a front of what is written for all of it.
pub fn convert<C: Converter, D: Desk>(
    alloc: Global,
    desk: &mut D,
    converter: &mut C,
    input: Port,
    output: Port,
) -> Status
    requires input { (D.at desk.old input).bound ≡ true }
    requires output { (D.at desk.old output).bound ≡ true }
    requires reads { is_input input ≡ true }
    requires writes { is_input output ≡ false }
    requires fresh { C.turned converter.old [] [] }
    requires none { C.count converter.old ≡ 0 }
    requires quiet { C.is_quiet converter.old }
    requires empty { D.tells ≡ true → (D.at desk.old output).written ≡ [] }
    ensures converts { Converts (C.writes (C.said converter.old)) input output D.tells (D.at desk.old) (D.at desk.new) result }
    ensures turned { D.tells ≡ true → result ≡ Status.Ok → C.turned converter.new (D.at desk.old input).left (D.at desk.new output).written }
    ensures at_rest { result ≡ Status.Ok → C.is_quiet converter.new }
    ensures said { C.said converter.new ≡ C.said converter.old }
{
    let mut piece = Vec::new(alloc);
    let Ok(()) = piece.resize(PIECE, 0) else {
        return Status::Memory;
    };
    let Ok(mut buffer) = Vec::with_capacity(alloc, 2 * PIECE) else {
        return Status::Memory;
    };
    let answer = convert_all(desk, converter, input, output, &mut piece, &mut buffer);
    end_so(desk, output, &mut buffer, answer)
}
