//! The rows, one after the other.

ghost use Rattle.sfc_routes.specs.PeerRoutes.{IsRouteChange};

use anyhow::anyhow;
use bgp_update::decode_update;
use path_selection::{HopRow, Table};
use route_selection::select_all;
use sfc_config::parse_setup;
use sfc_routes::{RouteChange, RouteList, routes_of};
use std::alloc::Global;
use std::str::SplitWhitespace;
use text_words::read_number;
use wire_base::{Bytes, List, OutOfMemory};

/// Want of memory, as the program ends with it.
fn memory_fault(_fault: OutOfMemory) -> anyhow::Error {
    anyhow!("no memory for a row")
}

/// The next word as a number of at most 65,535, and 0 where it is none.
fn next_number(words: &mut SplitWhitespace) -> u16 {
    let word = words.next().unwrap_or("");
    match read_number(word.as_bytes(), 0, 65_535) {
        Some(number) => number as u16,
        None => 0,
    }
}

/// Prints the row, does what it says, and prints what it shows.
pub(crate) fn take_row<R: Print>(
    rt: &R,
    alloc: Global,
    text: &mut Bytes,
    list: &mut RouteList,
    row: &str,
) -> anyhow::Result<()> {
    println!(rt; "{row}")?;
    if let Some(line) = row.strip_prefix(": ") {
        return push_line(text, line).map_err(memory_fault);
    }
    let mut words = row.split_whitespace();
    match words.next().unwrap_or("") {
        "setup" => {
            text.clear();
            Ok(())
        }
        "update" => update(alloc, list, words),
        "end" => end(alloc, list, words),
        "select" => select(rt, alloc, text, list),
        _ => Ok(()),
    }
}

fn push_line(text: &mut Bytes, line: &str) -> Result<(), OutOfMemory> {
    text.push_all(line.as_bytes())?;
    text.push_all(b"\n")
}

fn take(list: &mut RouteList, change: &RouteChange) -> anyhow::Result<()>
    requires { IsRouteChange change.now }
{
    match list.apply(change) {
        Ok(()) => Ok(()),
        Err(fault) => Err(memory_fault(fault)),
    }
}

fn update(alloc: Global, list: &mut RouteList, mut words: SplitWhitespace) -> anyhow::Result<()> {
    let peer = next_number(&mut words);
    let content = hex::decode(alloc, words.next().unwrap_or(""))?;
    let Ok(update) = decode_update(alloc, content.as_slice()) else {
        return Err(anyhow!("no update"));
    };
    let Ok(change) = routes_of(alloc, peer, &update) else {
        return Err(memory_fault(OutOfMemory));
    };
    take(list, &change)
}

fn end(alloc: Global, list: &mut RouteList, mut words: SplitWhitespace) -> anyhow::Result<()> {
    let peer = next_number(&mut words);
    let change = RouteChange {
        peer,
        all: true,
        withdrawn: List::new(alloc),
        announced: List::new(alloc),
    };
    take(list, &change)
}

fn select<R: Print>(rt: &R, alloc: Global, text: &Bytes, list: &RouteList) -> anyhow::Result<()> {
    let Ok(setup) = parse_setup(alloc, text.as_slice()) else {
        return Err(anyhow!("no setup"));
    };
    let Ok(table) = select_all(alloc, &setup.roster, list) else {
        return Err(memory_fault(OutOfMemory));
    };
    show(rt, &table)
}

fn show<R: Print>(rt: &R, table: &Table) -> anyhow::Result<()> {
    for i in 0..table.len() {
        let path = table.path(i);
        println!(rt; "  path {}", path.spi().number())?;
        show_hops(rt, path.rows())?;
    }
    Ok(())
}

fn show_hops<R: Print>(rt: &R, rows: &[HopRow]) -> anyhow::Result<()> {
    for row in rows {
        match row.choice {
            None => println!(rt; "    {}:-", row.si)?,
            Some((forwarder, instance)) => {
                println!(rt; "    {}:{}:{}", row.si, forwarder.0, instance.0)?
            }
        }
    }
    Ok(())
}
