//! The rows, one after the other.

use crate::desks::Desk;
use crate::faults::Fault;
use crate::open_rows::{close_window, publish, refuse, take_open_row};
use crate::openings::{begin, seats};
use crate::paths::path_by;
use crate::sum_rows::sum;
use crate::words::{next_path, next_spi};
use path_selection::Change;
use std::str::SplitWhitespace;
use std::sync::Wait;
use std::thread::Threads;

/// Prints the row, does what it says, and prints what it shows.
pub(crate) fn take_row<R: Print + Threads + Wait + Sync>(
    rt: &R,
    desk: &mut Desk,
    line: &str,
) -> anyhow::Result<()> {
    println!(rt; "{line}")?;
    if line.starts_with('#') {
        return Ok(());
    }
    let mut words = line.split_whitespace();
    let told = match words.next().unwrap_or("") {
        "put" => put(desk, words)?,
        "cut" => cut(desk, words)?,
        "seats" => seats(rt, desk.alloc, words)?,
        "begin" => begin(rt, desk, words)?,
        "publish" => publish(rt, desk)?,
        "refuse" => refuse(rt, desk)?,
        "close" => close_window(rt, desk)?,
        "sum" => sum(rt, desk, words)?,
        word => match &mut desk.open {
            None => false,
            Some(open) => take_open_row(rt, desk.alloc, open, word, words)?,
        },
    };
    if !told {
        println!(rt; "  ?")?;
    }
    Ok(())
}

fn put(desk: &mut Desk, mut words: SplitWhitespace) -> Result<bool, Fault> {
    let Some(spi) = next_spi(&mut words) else {
        return Ok(false);
    };
    let Some(number) = next_path(&mut words) else {
        return Ok(false);
    };
    let Some(path) = path_by(desk.alloc, spi, number)? else {
        return Ok(false);
    };
    desk.changes.push(Change::Put(path))?;
    Ok(true)
}

fn cut(desk: &mut Desk, mut words: SplitWhitespace) -> Result<bool, Fault> {
    let Some(spi) = next_spi(&mut words) else {
        return Ok(false);
    };
    desk.changes.push(Change::Cut(spi))?;
    Ok(true)
}
