//! Lists of context items.

use crate::digits::bytes_of;
use anyhow::{anyhow, bail};
use nsh_metadata::ItemList;
use std::alloc::Global;

/// Adds an item as often as it is asked for, until there is no room, and answers how often it was added.
fn fill(items: &mut ItemList, times: u8, class: u16, kind: u8, body: &[u8]) -> anyhow::Result<u8> {
    if body.len() > 127 {
        bail!("an item's body has at most 127 bytes");
    }
    for added in 0..times {
        if items.push(class, kind, body).is_err() {
            return Ok(added);
        }
    }
    Ok(times)
}

/// The part before the next space.
fn next_word<'a>(rest: &mut &'a str) -> anyhow::Result<&'a str> {
    let (word, behind) = rest.split_once(' ').ok_or(anyhow!("a word is missing"))?;
    *rest = behind;
    Ok(word)
}

/// Prints how often an item was added to none, the items' number and bytes, and whether a cleared list is empty.
pub(crate) fn show<R: Print>(rt: &R, alloc: Global, row: &str) -> anyhow::Result<()> {
    let mut rest = row;
    let times = next_word(&mut rest)?.parse::<u8>()?;
    let class = next_word(&mut rest)?.parse::<u16>()?;
    let kind = next_word(&mut rest)?.parse::<u8>()?;
    let body = bytes_of(alloc, rest)?;
    let mut items = ItemList::new();
    let added = fill(&mut items, times, class, kind, &body)?;
    println!(rt;
        "added {added}, {} items, none: {}",
        items.len(),
        items.is_empty()
    )?;
    println!(rt; "{}", hex::encode(alloc, items.bytes())?.as_str())?;
    items.clear();
    println!(rt;
        "cleared: {} items, none: {}",
        items.len(),
        items.is_empty()
    )?;
    Ok(())
}
