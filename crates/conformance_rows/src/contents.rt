//! Contents of UPDATEs.

use crate::answers::is_answer;
use bgp_update::{UpdateFault, decode_update, encode_update};
use conformance_vectors::{Case, Expected};
use std::alloc::Global;

/// What the decoder of contents answers.
fn content_answer(alloc: Global, content: &[u8]) -> Option<Expected> {
    match decode_update(alloc, content) {
        Ok(_) => Some(Expected::Accepted),
        Err(UpdateFault::Session(code, subcode, place)) => {
            Some(Expected::Update(code, subcode, place))
        }
        Err(UpdateFault::OutOfMemory) => None,
    }
}

/// The number of the two bytes that begin at the place, or 0 where they are not there.
fn number_at(content: &[u8], place: usize) -> u16 {
    match content.get(place..) {
        Some([high, low, ..]) => u16::from_be_bytes([*high, *low]),
        _ => 0,
    }
}

/// What a content answers that ends after `end` bytes, by its two lengths: the withdrawn routes or the lengths are not all
/// there, or the attributes are not; None where both are, and the answer is that of the whole.
fn cut_answer(content: &[u8], end: usize) -> Option<Expected> {
    let withdrawn = number_at(content, 0);
    let opening = 4 + usize::from(withdrawn);
    if end < opening {
        return Some(Expected::Update(3, 1, 0));
    }
    let attributes = number_at(content, opening - 2);
    if end < opening + usize::from(attributes) {
        return Some(Expected::Update(3, 1, 2 + u64::from(withdrawn)));
    }
    None
}

/// Whether the content has the answer that it is to have where it ends after `end` bytes.
fn holds_at(alloc: Global, case: &Case, end: usize) -> bool {
    let answer = content_answer(alloc, case.input.split_at(end.min(case.input.len())).0);
    match cut_answer(case.input, end) {
        Some(fault) => is_answer(answer, &fault),
        None => is_answer(answer, &case.answer),
    }
}

/// At how many of its bytes the content may end, and has its answer.
fn ends(alloc: Global, case: &Case) -> usize {
    (0..case.input.len())
        .filter(|end| holds_at(alloc, case, *end))
        .count()
}

/// Whether the update is written as the content again; None where there is none.
fn is_written_again(alloc: Global, content: &[u8]) -> Option<bool> {
    let update = decode_update(alloc, content).ok()?;
    let written = encode_update(alloc, &update).ok()?;
    Some(written.as_slice() == content)
}

/// Prints the line of a case.
pub(crate) fn show<R: Print>(rt: &R, alloc: Global, case: &Case) -> anyhow::Result<()> {
    let whole = is_answer(content_answer(alloc, case.input), &case.answer);
    print!(rt; "{}: {whole}, {}", case.name, ends(alloc, case))?;
    match is_written_again(alloc, case.input) {
        Some(again) => println!(rt; ", written again: {again}")?,
        None => println!(rt)?,
    }
    Ok(())
}

/// The most bytes of a content: those of a message less its header (RFC 4271, section 4.1).
const LONGEST: u16 = 4077;

/// A content of 4,077 bytes that ends in these, of which the first two are the attributes' length. Before them stand
/// withdrawn routes of zeros.
fn longest_content(alloc: Global, end: &[u8]) -> anyhow::Result<Vec<u8>> {
    let withdrawn = (LONGEST - 2).saturating_sub(end.len().min(4075) as u16);
    let mut content = withdrawn.to_be_bytes().to_vec(alloc)?;
    content.resize(2 + usize::from(withdrawn), 0)?;
    content.extend_from_slice(end)?;
    Ok(content)
}

/// Prints what is answered to a content of 4,077 bytes that ends in these digits.
pub(crate) fn show_longest<R: Print>(rt: &R, alloc: Global, digits: &str) -> anyhow::Result<()> {
    let content = longest_content(alloc, &hex::decode(alloc, digits)?)?;
    match decode_update(alloc, &content) {
        Ok(_) => println!(rt; "{digits}: accepted")?,
        Err(fault) => println!(rt; "{digits}: {} bytes, {fault:?}", content.len())?,
    }
    Ok(())
}
