//! A row, and what answers it.

use crate::input_texts::bytes_of;
use crate::read_words::{
    address_row, dash_row, digits_row, four_row, lines_row, local_row, name_row, number_row,
    octets_row, pieces_row, push_none, run_row,
};
use crate::roster_questions::ask_row;
use crate::said_lines::{function_row, keyword_row, line_row};
use crate::whole_texts::{joined_row, kept_setup, many_row, setup_row};
use std::alloc::Global;
use text_words::Pieces;
use wire_base::{Bytes, OutOfMemory};

/// A number in a range and a word, `LEAST|MOST|WORD`.
fn ranged_row(alloc: Global, out: &mut Bytes, input: &[u8]) -> Result<(), OutOfMemory> {
    let mut parts = Pieces::of(input, b'|');
    let Some(least) = parts.next_number(0, u64::MAX) else {
        return push_none(out);
    };
    let Some(most) = parts.next_number(0, u64::MAX) else {
        return push_none(out);
    };
    let Some(word) = parts.next() else {
        return push_none(out);
    };
    number_row(alloc, out, word, least, most)
}

/// A count, a line and a text, `COUNT|LINE|TEXT`.
fn counted_row(
    alloc: Global,
    out: &mut Bytes,
    kept: &[u8],
    input: &[u8],
) -> Result<(), OutOfMemory> {
    let mut parts = Pieces::of(input, b'|');
    let Some(count) = parts.next_number(0, 65_535) else {
        return push_none(out);
    };
    let Some(line) = parts.next() else {
        return push_none(out);
    };
    let Some(behind) = parts.next() else {
        return push_none(out);
    };
    many_row(alloc, out, kept, count as u16, line, behind)
}

/// A question to the roster of the kept setup.
fn asked_row(
    alloc: Global,
    out: &mut Bytes,
    kept: &[u8],
    question: &str,
) -> Result<(), OutOfMemory> {
    match kept_setup(alloc, kept)? {
        Some(setup) => ask_row(alloc, out, &setup.roster, question),
        None => push_none(out),
    }
}

/// The answer to a row on words.
fn word_answer(
    alloc: Global,
    out: &mut Bytes,
    kind: &str,
    input: &[u8],
) -> Result<(), OutOfMemory> {
    match kind {
        "number" => ranged_row(alloc, out, input),
        "name" => name_row(out, input),
        "octets" => octets_row(alloc, out, input),
        "four" => four_row(alloc, out, input),
        "dash" => dash_row(alloc, out, input),
        "run" => run_row(alloc, out, input),
        "digits" => digits_row(out, input),
        "address" => address_row(alloc, out, input),
        "lines" => lines_row(out, input),
        "pieces" => pieces_row(out, input),
        "local" => local_row(alloc, out, input),
        _ => said_answer(alloc, out, kind, input),
    }
}

/// The answer to a row on statements.
fn said_answer(
    alloc: Global,
    out: &mut Bytes,
    kind: &str,
    input: &[u8],
) -> Result<(), OutOfMemory> {
    match kind {
        "keyword" => keyword_row(alloc, out, input),
        "line" => line_row(out, input),
        "function" => function_row(alloc, out, input),
        _ => out.push_all(b"  no row\n"),
    }
}

/// The answer to a row: on whole texts, or on words.
fn row_answer(
    alloc: Global,
    out: &mut Bytes,
    kept: &[u8],
    kind: &str,
    input: &str,
) -> Result<(), OutOfMemory> {
    let bytes = bytes_of(alloc, input)?;
    match kind {
        "keep" | "setup" => setup_row(alloc, out, bytes.as_slice()),
        "before" => joined_row(alloc, out, bytes.as_slice(), kept),
        "behind" => joined_row(alloc, out, kept, bytes.as_slice()),
        "many" => counted_row(alloc, out, kept, bytes.as_slice()),
        "ask" => asked_row(alloc, out, kept, input),
        _ => word_answer(alloc, out, kind, bytes.as_slice()),
    }
}

/// A row, and under it its answer.
pub(crate) fn answer(alloc: Global, kept: &mut Bytes, row: &str) -> Result<Bytes, OutOfMemory> {
    let mut out = Bytes::new(alloc);
    out.push_all(row.as_bytes())?;
    out.push_all(b"\n")?;
    if row.is_empty() || row.starts_with('#') {
        return Ok(out);
    }
    let (kind, input) = match row.split_once('|') {
        Some(parts) => parts,
        None => (row, ""),
    };
    if kind == "keep" {
        *kept = bytes_of(alloc, input)?;
    }
    row_answer(alloc, &mut out, kept.as_slice(), kind, input)?;
    Ok(out)
}
