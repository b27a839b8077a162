//! `show nsh`: the first bytes of the source are kept, and those that follow are counted.

ghost use Rattle.std.specs.Prelude.{◌≡◌, ℕ, ◌+◌, ◌^◌, ◌<◌, ◌≤◌, min, true, List, [], ◌++◌, take, length, IfOk, OnOk, IsErrOf};
ghost use Rattle.sfc_desk.specs.Desks.{Rose, Moves};
ghost use Rattle.sfc_texts.specs.NshText.{ShowsNsh};
ghost use Rattle.commands.specs.Pieces.{SameCounts};
ghost use Rattle.show_command.specs.declared.show_words.Format.TheVariants.{Nsh};
ghost use Rattle.show_command.specs.ShowSteps.{ShowsSource};

use crate::sources::{next_piece, piece_room};
use commands::{ReadFault, Status, report};
use sfc_desk::{Desk, Port};
use sfc_texts::{bytes_are_shown_once, nsh_lines_of_front};
use std::alloc::Global;
use wire_base::{Bytes, OutOfMemory};

/// The most bytes that a header has.
const MOST_OF_HEADER: usize = 252;

/// Appends the front of the piece that the front of the source still lacks.
fn keep_front(front: &mut Bytes, piece: &[u8]) -> Result<(), OutOfMemory>
    requires { length front.old ≤ 252 }
    ensures front { (taken : List ℕ) → front.old ≡ take 252 taken → OnOk result (front.new ≡ take 252 (taken ++ piece.now)) }
    ensures count { OnOk result (length front.new ≡ min 252 (length front.old + length piece.now)) }
{
    let most = piece.len().min(MOST_OF_HEADER - front.as_slice().len());
    front.push_all(&piece[..most])
}

/// The text of a source of so many bytes, of which these are the first.
fn text_of_front(alloc: Global, front: &Bytes, total: u64) -> Result<Bytes, OutOfMemory>
    requires small { total ≤ 2 ^ 40 }
    requires kept { length front.now ≡ min 252 total }
    ensures { (input : List ℕ) → front.now ≡ take 252 input → length input ≡ total → IfOk result (ShowsNsh input) }
{
    let front = front.as_slice();
    nsh_lines_of_front(alloc, front, total - front.len() as u64)
}

/// The text of the bound source, which is read to its end.
fn header_text<D: Desk>(alloc: Global, desk: &mut D) -> Result<Bytes, ReadFault>
    requires bound { (D.at desk.old Port.Source).bound ≡ true }
    ensures text { D.tells ≡ true → IfOk result (ShowsNsh (D.at desk.old Port.Source).left) }
    ensures end { D.tells ≡ true → OnOk result ((D.at desk.new Port.Source).left ≡ []) }
    ensures within { D.tells ≡ true → OnOk result (length (D.at desk.old Port.Source).left ≤ 2 ^ 40) }
    ensures long { D.tells ≡ true → IsErrOf result ReadFault.Long → 2 ^ 40 < length (D.at desk.old Port.Source).left }
    ensures cause { IsErrOf result ReadFault.File → Rose (D.at desk.old Port.Source) (D.at desk.new Port.Source) }
    ensures quiet { OnOk result (SameCounts (D.at desk.old) (D.at desk.new)) }
    ensures long_quiet { IsErrOf result ReadFault.Long → SameCounts (D.at desk.old) (D.at desk.new) }
    ensures spared { IsErrOf result ReadFault.OutOfMemory → SameCounts (D.at desk.old) (D.at desk.new) }
    ensures moves { Moves D.tells Port.Source (D.held desk.old) (D.held desk.new) (D.at desk.old) (D.at desk.new) }
{
    let Ok(mut piece) = piece_room(alloc) else {
        return Err(ReadFault::OutOfMemory);
    };
    let mut front = Bytes::new(alloc);
    let mut total = 0;
    'pieces: loop {
        let count = next_piece(desk, &mut piece, total)?;
        if count == 0 {
            break;
        }
        if keep_front(&mut front, &piece[..count]).is_err() {
            return Err(ReadFault::OutOfMemory);
        }
        total += count as u64;
    }
    match text_of_front(alloc, &front, total) {
        Ok(text) => Ok(text),
        Err(_) => Err(ReadFault::OutOfMemory),
    }
}

/// Shows the header that the bound source begins with.
pub(crate) fn show_header<D: Desk>(alloc: Global, desk: &mut D) -> Status
    requires source { (D.at desk.old Port.Source).bound ≡ true }
    ensures { ShowsSource Nsh D.tells (D.at desk.old) (D.at desk.new) result }
{
    bytes_are_shown_once();
    let text = match header_text(alloc, desk) {
        Ok(text) => text,
        Err(ReadFault::File) => return Status::File(Port::Source),
        Err(ReadFault::Long) => return Status::Long(Port::Source),
        Err(ReadFault::OutOfMemory) => return Status::Memory,
    };
    match report(desk, text.as_slice()) {
        Ok(()) => Status::Ok,
        Err(_) => Status::File(Port::Report),
    }
}
