//! A setup from its text.

ghost use Rattle.std.specs.Prelude.{◌≡◌, ◌↔◌, IsTrue};
ghost use Rattle.sfc_config.specs.Texts.{IsPrintable, is_skipped as is_skipped_line, is_text_byte as text_byte_of, Parses};
ghost use Rattle.sfc_config.specs.Steps.{IsDraft, Taken, LineRead, Finished, fault_at as fault_of_line};

use crate::drafts::Draft;
use crate::faults::{LineFault, SetupFault, SetupReason};
use crate::placing::place_statement;
use crate::setups::Setup;
use setup_statements::{Keyword, Statement, read_statement};
use std::alloc::Global;
use text_words::{Pieces, TextLines};

/// Whether a byte may stand in a setup text.
fn is_text_byte(byte: u8) -> bool
    ensures { result ≡ text_byte_of byte }
{
    (32..=126).contains(&byte)
}

/// Whether all bytes of a line may stand in a setup text.
fn is_printable(line: &[u8]) -> bool
    ensures { IsTrue result ↔ IsPrintable line.now }
{
    line.iter().all(|byte| is_text_byte(*byte))
}

/// Whether a line says nothing: it is empty, or a comment.
fn is_skipped(line: &[u8]) -> bool
    ensures { result ≡ is_skipped_line line.now }
{
    match line {
        [] => true,
        [first, ..] => *first == b'#',
    }
}

/// Reads the statement of a line; else its words begin none, or do not fit the one that they begin.
pub(crate) fn read_line(line: &[u8]) -> Result<Statement, SetupReason>
    ensures { LineRead line.now result }
{
    let mut words = Pieces::of(line, b' ');
    let Some(word) = words.next() else {
        return Err(SetupReason::Word);
    };
    let Some(keyword) = Keyword::of(word) else {
        return Err(SetupReason::Word);
    };
    match read_statement(keyword, &mut words) {
        Some(statement) => Ok(statement),
        None => Err(SetupReason::Shape),
    }
}

/// Takes a line, or tells the first reason why it is refused.
fn take_line(draft: &mut Draft, line: &[u8]) -> Result<(), LineFault>
    ensures { Taken draft.old line.now result draft.new }
{
    if !is_printable(line) {
        return Err(LineFault::Reason(SetupReason::Byte));
    }
    if is_skipped(line) {
        return Ok(());
    }
    match read_line(line) {
        Ok(statement) => place_statement(draft, statement),
        Err(reason) => Err(LineFault::Reason(reason)),
    }
}

/// The setup that a draft has said, where nothing is missing.
fn finish(draft: Draft) -> Result<Setup, SetupFault>
    requires { IsDraft draft }
    ensures { Finished draft result }
{
    let Some(local) = draft.local else {
        return Err(SetupFault::Line(0, SetupReason::Missing));
    };
    let Some(ingress) = draft.ingress else {
        return Err(SetupFault::Line(0, SetupReason::Missing));
    };
    if draft.roster.forwarders() == 0 {
        return Err(SetupFault::Line(0, SetupReason::Missing));
    }
    Ok(Setup {
        local,
        peers: draft.peers,
        roster: draft.roster,
        ingress,
        instances: draft.instances,
        rules: draft.rules,
    })
}

/// The fault of a text whose line with this number is not taken.
fn fault_at(number: u64, fault: LineFault) -> SetupFault
    ensures { result ≡ fault_of_line number fault }
{
    match fault {
        LineFault::Reason(reason) => SetupFault::Line(number, reason),
        LineFault::OutOfMemory => SetupFault::OutOfMemory,
    }
}

/// Reads a setup text, as docs/SETUP.md has it: the setup that the text spells, or its first refused line with the
/// first reason for it.
pub fn parse_setup(alloc: Global, text: &[u8]) -> Result<Setup, SetupFault>
    ensures { Parses text.now result }
{
    let mut draft = Draft::new(alloc);
    let mut lines = TextLines::of(text);
    let mut number = 0;
    'lines: while let Some(line) = lines.next() {
        number += 1;
        match take_line(&mut draft, line) {
            Ok(()) => {}
            Err(fault) => return Err(fault_at(number, fault)),
        }
    }
    finish(draft)
}
