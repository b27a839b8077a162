//! The rows, one after the other.

ghost use Rattle.sfc_routes.specs.PeerRoutes.{IsRouteChange};

use crate::made_changes::{announcement, end_of, withdrawal};
use anyhow::anyhow;
use bgp_update::decode_update;
use sfc_routes::{RouteChange, RouteList, routes_of};
use std::alloc::Global;
use std::str::SplitWhitespace;
use text_words::read_number;
use wire_base::OutOfMemory;

/// Want of memory, as the program ends with it.
fn memory_fault(_fault: OutOfMemory) -> anyhow::Error {
    anyhow!("no memory for a row")
}

/// The next word as a number of at most 65,535, and 0 where it is none.
fn next_number(words: &mut SplitWhitespace) -> u16 {
    let word = words.next().unwrap_or("");
    match read_number(word.as_bytes(), 0, 65_535) {
        Some(number) => number as u16,
        None => 0,
    }
}

/// Prints the row, does what it says, and prints what it shows.
pub(crate) fn take_row<R: Print>(
    rt: &R,
    alloc: Global,
    list: &mut RouteList,
    row: &str,
) -> anyhow::Result<()> {
    println!(rt; "{row}")?;
    let mut words = row.split_whitespace();
    match words.next().unwrap_or("") {
        "update" => update(rt, alloc, list, words),
        "end" => end(alloc, list, words),
        "fill" => many(alloc, list, words, true),
        "empty" => many(alloc, list, words, false),
        "list" => show(rt, list),
        "count" => count(rt, list),
        _ => Ok(()),
    }
}

fn take(list: &mut RouteList, change: &RouteChange) -> anyhow::Result<()>
    requires { IsRouteChange change.now }
{
    match list.apply(change) {
        Ok(()) => Ok(()),
        Err(fault) => Err(memory_fault(fault)),
    }
}

fn update<R: Print>(
    rt: &R,
    alloc: Global,
    list: &mut RouteList,
    mut words: SplitWhitespace,
) -> anyhow::Result<()> {
    let peer = next_number(&mut words);
    let content = hex::decode(alloc, words.next().unwrap_or(""))?;
    let Ok(update) = decode_update(alloc, content.as_slice()) else {
        println!(rt; "  no update")?;
        return Ok(());
    };
    let Ok(change) = routes_of(alloc, peer, &update) else {
        return Err(memory_fault(OutOfMemory));
    };
    println!(rt; "  {change:?}")?;
    take(list, &change)
}

fn end(alloc: Global, list: &mut RouteList, mut words: SplitWhitespace) -> anyhow::Result<()> {
    let peer = next_number(&mut words);
    take(list, &end_of(alloc, peer))
}

/// Announces or withdraws one route.
fn one(
    alloc: Global,
    list: &mut RouteList,
    peer: u16,
    number: u16,
    here: bool,
) -> anyhow::Result<()> {
    if here {
        let change = announcement(alloc, peer, number).map_err(memory_fault)?;
        return take(list, &change);
    }
    let change = withdrawal(alloc, peer, number).map_err(memory_fault)?;
    take(list, &change)
}

fn many(
    alloc: Global,
    list: &mut RouteList,
    mut words: SplitWhitespace,
    here: bool,
) -> anyhow::Result<()> {
    let peer = next_number(&mut words);
    let count = next_number(&mut words);
    let down = words.next().unwrap_or("") == "down";
    for i in 0..count {
        let number = if down { count - 1 - i } else { i };
        one(alloc, list, peer, number, here)?;
    }
    Ok(())
}

fn show<R: Print>(rt: &R, list: &RouteList) -> anyhow::Result<()> {
    for i in 0..list.len() {
        let (peer, route) = list.entry(i);
        println!(rt; "  {peer} {route:?}")?;
    }
    Ok(())
}

fn count<R: Print>(rt: &R, list: &RouteList) -> anyhow::Result<()> {
    let len = list.len();
    println!(rt; "  {len}")?;
    if len > 0 {
        let (first, route) = list.entry(0);
        println!(rt; "  {first} {:?}", route.nlri)?;
        let (last, route) = list.entry(len - 1);
        println!(rt; "  {last} {:?}", route.nlri)?;
    }
    Ok(())
}
