//! Values of SFP attributes.

use crate::answers::is_answer;
use conformance_vectors::{Case, Expected};
use sfp_attribute::{Sfp, SfpFault, decode_sfp, encode_sfp};
use std::alloc::Global;

/// What the decoder of values answers.
fn value_answer(alloc: Global, value: &[u8]) -> Option<Expected> {
    match decode_sfp(alloc, value) {
        Ok(_) => Some(Expected::Accepted),
        Err(SfpFault::OutOfMemory) => None,
        Err(fault) => Some(Expected::Sfp(fault)),
    }
}

/// Whether the attribute has a copy that is the same.
fn is_copied(alloc: Global, sfp: &Sfp) -> bool {
    match sfp.copy(alloc) {
        Ok(copy) => copy.same(sfp),
        Err(_) => false,
    }
}

/// Whether the attribute is written as the value again, and is copied; None where there is none.
fn comes_back(alloc: Global, value: &[u8]) -> Option<(bool, bool)> {
    let sfp = decode_sfp(alloc, value).ok()?;
    let written = encode_sfp(alloc, &sfp).ok()?;
    Some((written.as_slice() == value, is_copied(alloc, &sfp)))
}

/// Prints the line of a case.
pub(crate) fn show<R: Print>(rt: &R, alloc: Global, case: &Case) -> anyhow::Result<()> {
    let whole = is_answer(value_answer(alloc, case.input), &case.answer);
    print!(rt; "{}: {whole}", case.name)?;
    match comes_back(alloc, case.input) {
        Some((again, copied)) => println!(rt; ", written again: {again}, copied: {copied}")?,
        None => println!(rt)?,
    }
    Ok(())
}

/// The most bytes of a value: those of the content of an UPDATE less its two lengths and the attribute's head.
const LONGEST: u16 = 4069;

/// A value of 4,069 bytes that ends in these. Before them stands a part of kind 6, of zeros.
fn longest_value(alloc: Global, end: &[u8]) -> anyhow::Result<Vec<u8>> {
    let kept = (LONGEST - 3).saturating_sub(end.len().min(4066) as u16);
    let [high, low] = kept.to_be_bytes();
    let mut value = [6, high, low].to_vec(alloc)?;
    value.resize(3 + usize::from(kept), 0)?;
    value.extend_from_slice(end)?;
    Ok(value)
}

/// Prints what is answered to a value of 4,069 bytes that ends in these digits.
pub(crate) fn show_longest<R: Print>(rt: &R, alloc: Global, digits: &str) -> anyhow::Result<()> {
    let value = longest_value(alloc, &hex::decode(alloc, digits)?)?;
    match decode_sfp(alloc, &value) {
        Ok(_) => println!(rt; "{digits}: accepted")?,
        Err(fault) => println!(rt; "{digits}: {} bytes, {fault:?}", value.len())?,
    }
    Ok(())
}
