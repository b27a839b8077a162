//! Whole setup texts.

use crate::input_texts::{joined, repeated};
use crate::read_words::push_text;
use sfc_config::{Setup, SetupFault, parse_setup, print_setup};
use std::alloc::Global;
use text_words::TextLines;
use wire_base::{Bytes, OutOfMemory};

/// The setup of a text, or its refusal.
fn setup_of(alloc: Global, text: &[u8]) -> Result<Result<Setup, SetupFault>, OutOfMemory> {
    match parse_setup(alloc, text) {
        Ok(setup) => Ok(Ok(setup)),
        Err(SetupFault::OutOfMemory) => Err(OutOfMemory),
        Err(fault) => Ok(Err(fault)),
    }
}

/// Appends why a text is refused.
fn push_refusal(alloc: Global, out: &mut Bytes, fault: SetupFault) -> Result<(), OutOfMemory> {
    let text = format!(in alloc; "  {fault:?}\n")?;
    push_text(out, text.as_str())
}

/// Appends what a setup holds: its numbers, and how many there are of each kind.
fn push_counts(alloc: Global, out: &mut Bytes, setup: &Setup) -> Result<(), OutOfMemory> {
    let roster = &setup.roster;
    let text = format!(in alloc;
        "  {:?}, ingress {}, {} targets, {} peers, {} forwarders, {} instances, {} rules\n",
        setup.local,
        setup.ingress.0,
        roster.targets(),
        setup.peers.as_slice().len(),
        roster.forwarders(),
        roster.instances(),
        setup.rules.len(),
    )?;
    push_text(out, text.as_str())
}

/// Appends the peers, and which instances are behind a proxy.
fn push_members(alloc: Global, out: &mut Bytes, setup: &Setup) -> Result<(), OutOfMemory> {
    let text = format!(in alloc; "  peers {:?}, proxies", setup.peers.as_slice())?;
    push_text(out, text.as_str())?;
    for bound in setup.instances.as_slice() {
        out.push_all(if bound.proxy { b" true" } else { b" false" })?;
    }
    out.push_all(b"\n")
}

/// Appends the lines of a text, each behind two spaces.
fn push_lines(out: &mut Bytes, text: &[u8]) -> Result<(), OutOfMemory> {
    let mut lines = TextLines::of(text);
    'lines: while let Some(line) = lines.next() {
        out.push_all(b"  ")?;
        out.push_all(line)?;
        out.push_all(b"\n")?;
    }
    Ok(())
}

/// Whether a printed text is read, and printed as itself again.
fn is_read_again(alloc: Global, printed: &[u8]) -> Result<bool, OutOfMemory> {
    match setup_of(alloc, printed)? {
        Ok(setup) => {
            let again = print_setup(alloc, &setup)?;
            Ok(again.as_slice() == printed)
        }
        Err(_) => Ok(false),
    }
}

/// Appends whether a printed text is read, and printed as itself again.
fn push_again(alloc: Global, out: &mut Bytes, printed: &[u8]) -> Result<(), OutOfMemory> {
    if is_read_again(alloc, printed)? {
        out.push_all(b"  read again, and printed as before\n")
    } else {
        out.push_all(b"  NOT READ AGAIN\n")
    }
}

/// Appends all of a setup: what it holds, and its text.
fn push_setup(alloc: Global, out: &mut Bytes, setup: &Setup) -> Result<(), OutOfMemory> {
    push_counts(alloc, out, setup)?;
    push_members(alloc, out, setup)?;
    let printed = print_setup(alloc, setup)?;
    push_lines(out, printed.as_slice())?;
    push_again(alloc, out, printed.as_slice())
}

/// Appends what a setup holds, and how long its text is.
fn push_summary(alloc: Global, out: &mut Bytes, setup: &Setup) -> Result<(), OutOfMemory> {
    push_counts(alloc, out, setup)?;
    let printed = print_setup(alloc, setup)?;
    let text = format!(in alloc; "  printed in {} bytes\n", printed.as_slice().len())?;
    push_text(out, text.as_str())?;
    push_again(alloc, out, printed.as_slice())
}

/// A text as a setup, or its refusal.
pub(crate) fn setup_row(alloc: Global, out: &mut Bytes, text: &[u8]) -> Result<(), OutOfMemory> {
    match setup_of(alloc, text)? {
        Ok(setup) => push_setup(alloc, out, &setup),
        Err(fault) => push_refusal(alloc, out, fault),
    }
}

/// A text as a setup, of which its counts are told, or its refusal.
fn summary_row(alloc: Global, out: &mut Bytes, text: &[u8]) -> Result<(), OutOfMemory> {
    match setup_of(alloc, text)? {
        Ok(setup) => push_summary(alloc, out, &setup),
        Err(fault) => push_refusal(alloc, out, fault),
    }
}

/// Two texts, one behind the other, as a setup.
pub(crate) fn joined_row(
    alloc: Global,
    out: &mut Bytes,
    front: &[u8],
    behind: &[u8],
) -> Result<(), OutOfMemory> {
    let text = joined(alloc, front, behind)?;
    summary_row(alloc, out, text.as_slice())
}

/// A text with many lines behind it, and a text behind them, as a setup.
pub(crate) fn many_row(
    alloc: Global,
    out: &mut Bytes,
    front: &[u8],
    count: u16,
    line: &[u8],
    behind: &[u8],
) -> Result<(), OutOfMemory> {
    let text = repeated(alloc, front, count, line)?;
    joined_row(alloc, out, text.as_slice(), behind)
}

/// What a question to the roster of a text's setup is asked of.
pub(crate) fn kept_setup(alloc: Global, text: &[u8]) -> Result<Option<Setup>, OutOfMemory> {
    match setup_of(alloc, text)? {
        Ok(setup) => Ok(Some(setup)),
        Err(_) => Ok(None),
    }
}
