//! The rows, one after the other.

use crate::words::{next_index, next_spi, path_of};
use path_selection::{Answer, Change, HopRow, Table};
use std::alloc::{AllocError, Global};
use std::io;
use std::str::SplitWhitespace;
use wire_base::OutOfMemory;

/// Want of memory, as the program ends with it.
fn memory_fault(_fault: OutOfMemory) -> AllocError {
    AllocError
}

/// Prints the row, does what it says, and prints what it shows.
pub(crate) fn take_row<R: Print>(
    rt: &R,
    alloc: Global,
    table: &mut Table,
    line: &str,
) -> io::Result<()> {
    if line.is_empty() || line.starts_with('#') {
        return Ok(());
    }
    println!(rt; "{line}")?;
    let mut words = line.split_whitespace();
    let told = match words.next().unwrap_or("") {
        "put" => put(alloc, table, words).map_err(memory_fault)?,
        "cut" => cut(table, words).map_err(memory_fault)?,
        "ask" => ask(rt, table, words)?,
        "table" => show(rt, table)?,
        _ => false,
    };
    if !told {
        println!(rt; "  ?")?;
    }
    Ok(())
}

fn put(alloc: Global, table: &mut Table, words: SplitWhitespace) -> Result<bool, OutOfMemory> {
    let Some(path) = path_of(alloc, words)? else {
        return Ok(false);
    };
    table.apply(Change::Put(path))?;
    Ok(true)
}

fn cut(table: &mut Table, mut words: SplitWhitespace) -> Result<bool, OutOfMemory> {
    let Some(spi) = next_spi(&mut words) else {
        return Ok(false);
    };
    table.apply(Change::Cut(spi))?;
    Ok(true)
}

fn ask<R: Print>(rt: &R, table: &Table, mut words: SplitWhitespace) -> io::Result<bool> {
    let Some(spi) = next_spi(&mut words) else {
        return Ok(false);
    };
    let Some(si) = next_index(&mut words) else {
        return Ok(false);
    };
    match table.answer(spi, si) {
        Answer::NoPath => println!(rt; "  no path")?,
        Answer::Ended => println!(rt; "  ended")?,
        Answer::NoInstance(at) => println!(rt; "  {at} without an instance")?,
        Answer::At(at, forwarder, instance) => {
            println!(rt; "  {at} at {} by {}", forwarder.0, instance.0)?
        }
    }
    Ok(true)
}

fn show<R: Print>(rt: &R, table: &Table) -> io::Result<bool> {
    for i in 0..table.len() {
        let path = table.path(i);
        println!(rt; "  path {}", path.spi().number())?;
        show_hops(rt, path.rows())?;
    }
    Ok(true)
}

fn show_hops<R: Print>(rt: &R, rows: &[HopRow]) -> io::Result<()> {
    for row in rows {
        match row.choice {
            None => println!(rt; "    {}:-", row.si)?,
            Some((forwarder, instance)) => {
                println!(rt; "    {}:{}:{}", row.si, forwarder.0, instance.0)?
            }
        }
    }
    Ok(())
}
