//! Network Service Headers.

use crate::answers::is_answer;
use conformance_vectors::{Case, Expected};
use nsh_headers::NshFault;
use nsh_metadata::{NshFeed, NshStep, decode_nsh, encode_nsh};

/// What the decoder of whole inputs answers. A header that does not fill the input is none.
fn whole_answer(input: &[u8]) -> Option<Expected> {
    match decode_nsh(input) {
        Ok((_, size)) => (size == input.len()).then_some(Expected::Accepted),
        Err(fault) => Some(Expected::Nsh(fault)),
    }
}

/// What a feed answers that gets the input in two pieces. A header that does not fill the input is none. Where more
/// bytes are awaited at the end, that is the fault of a whole input that is too short.
fn fed_answer(input: &[u8], cut: usize) -> Option<Expected> {
    let (first, second) = input.split_at(cut.min(input.len()));
    let mut feed = NshFeed::new();
    let (answer, awaited) = match feed.push(first) {
        NshStep::More => (feed.push(second), second.len()),
        early => (early, input.len()),
    };
    match answer {
        NshStep::More => Some(Expected::Nsh(NshFault::Short(input.len() as u64))),
        NshStep::Whole(_, taken) => (taken == awaited).then_some(Expected::Accepted),
        NshStep::Fault(fault) => Some(Expected::Nsh(fault)),
    }
}

/// Whether the header is written as the whole input again; None where there is none.
fn is_written_again(input: &[u8]) -> Option<bool> {
    let (nsh, _) = decode_nsh(input).ok()?;
    let mut out = [0xEE; 252];
    match encode_nsh(&nsh, &mut out) {
        Ok(size) => Some(out.get(..size) == Some(input)),
        Err(_) => Some(false),
    }
}

/// In how many of its cuttings into two the input has its answer.
fn cuttings(case: &Case) -> usize {
    (0..=case.input.len())
        .filter(|cut| is_answer(fed_answer(case.input, *cut), &case.answer))
        .count()
}

/// Prints the line of a case.
pub(crate) fn show<R: Print>(rt: &R, case: &Case) -> anyhow::Result<()> {
    let whole = is_answer(whole_answer(case.input), &case.answer);
    print!(rt; "{}: {whole}, {}", case.name, cuttings(case))?;
    match is_written_again(case.input) {
        Some(again) => println!(rt; ", written again: {again}")?,
        None => println!(rt)?,
    }
    Ok(())
}
