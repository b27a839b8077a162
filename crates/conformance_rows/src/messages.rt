//! BGP messages.

use crate::answers::is_answer;
use bgp_messages::{BgpFeed, NextFault};
use conformance_vectors::{Case, Expected};
use std::alloc::Global;

/// What a new feed answers to the input in two pieces: its refusal, or `Accepted` where it gives one message
/// and then awaits another. A refusal of the first piece stands.
fn fed_answer(alloc: Global, input: &[u8], cut: usize) -> Option<Expected> {
    let (first, second) = input.split_at(cut.min(input.len()));
    let mut feed = BgpFeed::new(alloc);
    feed.push(first).ok()?;
    match feed.next() {
        Ok(None) => {}
        Ok(Some(_)) if second.is_empty() => {
            return matches!(feed.next(), Ok(None)).then_some(Expected::Accepted);
        }
        Err(NextFault::Bad(refusal)) => return Some(Expected::Bgp(refusal)),
        _ => return None,
    }
    feed.push(second).ok()?;
    match feed.next() {
        Ok(Some(_)) => matches!(feed.next(), Ok(None)).then_some(Expected::Accepted),
        Err(NextFault::Bad(refusal)) => Some(Expected::Bgp(refusal)),
        _ => None,
    }
}

/// In how many of its cuttings into two the input has its answer.
fn cuttings(alloc: Global, case: &Case) -> usize {
    (0..=case.input.len())
        .filter(|cut| is_answer(fed_answer(alloc, case.input, *cut), &case.answer))
        .count()
}

/// Prints the line of a case.
pub(crate) fn show<R: Print>(rt: &R, alloc: Global, case: &Case) -> anyhow::Result<()> {
    let whole = is_answer(fed_answer(alloc, case.input, 0), &case.answer);
    println!(rt; "{}: {whole}, {}", case.name, cuttings(alloc, case))?;
    Ok(())
}
