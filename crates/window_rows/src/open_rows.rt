//! The rows on the window that is open.

use crate::desks::Desk;
use crate::faults::Fault;
use crate::open_windows::OpenWindow;
use crate::words::{next_number, next_place, next_question, next_spi};
use path_selection::{Found, Table};
use std::alloc::Global;
use std::mem;
use std::str::SplitWhitespace;
use std::sync::Wait;
use std::thread::Threads;
use wire_base::List;

/// Publishes the changes that wait.
pub(crate) fn publish<R: Print + Wait>(rt: &R, desk: &mut Desk) -> anyhow::Result<bool> {
    let Some(open) = &mut desk.open else {
        return Ok(false);
    };
    let changes = mem::replace(&mut desk.changes, List::new(desk.alloc));
    let version = open.publish(rt, changes).map_err(Fault::from)?;
    println!(rt; "  version {version}")?;
    Ok(true)
}

/// Publishes twice and closes, and shows which of these were refused.
pub(crate) fn refuse<R: Print + Wait>(rt: &R, desk: &mut Desk) -> anyhow::Result<bool> {
    let Some(mut open) = desk.open.take() else {
        return Ok(false);
    };
    let first = open.publish(rt, List::new(desk.alloc)).is_err();
    let second = open.publish(rt, List::new(desk.alloc)).is_err();
    let closed = open.close(rt, desk.alloc).is_err();
    println!(rt; "  {first} {second} {closed}")?;
    Ok(true)
}

/// Closes the window.
pub(crate) fn close_window<R: Print + Wait>(rt: &R, desk: &mut Desk) -> anyhow::Result<bool> {
    let Some(open) = desk.open.take() else {
        return Ok(false);
    };
    let (table, version) = open.close(rt, desk.alloc).map_err(Fault::from)?;
    println!(rt; "  version {version}")?;
    show_table(rt, &table)?;
    Ok(true)
}

fn show_table<R: Print>(rt: &R, table: &Table) -> anyhow::Result<()> {
    for i in 0..table.len() {
        let path = table.path(i);
        println!(rt; "  path {} {:?}", path.spi().number(), path.rows())?;
    }
    Ok(())
}

/// A row that asks the seats.
pub(crate) fn take_open_row<R: Print + Threads + Wait + Sync>(
    rt: &R,
    alloc: Global,
    open: &mut OpenWindow,
    word: &str,
    words: SplitWhitespace,
) -> anyhow::Result<bool> {
    match word {
        "learn" => Ok(learn(open, words)),
        "forget" => {
            open.forget();
            Ok(true)
        }
        "look" => look(rt, open, words),
        "beside" => look_beside(rt, open, words),
        "turns" => turns(rt, alloc, open, words),
        "race" => race(rt, alloc, open, words),
        _ => Ok(false),
    }
}

fn learn(open: &mut OpenWindow, mut words: SplitWhitespace) -> bool {
    let Some(place) = next_place(&mut words) else {
        return false;
    };
    open.learn(place)
}

fn look<R: Print>(rt: &R, open: &mut OpenWindow, words: SplitWhitespace) -> anyhow::Result<bool> {
    let Some(asked) = next_question(words) else {
        return Ok(false);
    };
    show_found(rt, open.look(asked)?)
}

fn look_beside<R: Print + Threads + Sync>(
    rt: &R,
    open: &mut OpenWindow,
    words: SplitWhitespace,
) -> anyhow::Result<bool> {
    let Some(asked) = next_question(words) else {
        return Ok(false);
    };
    show_found(rt, open.look_beside(rt, asked)?)
}

fn show_found<R: Print>(rt: &R, found: Found) -> anyhow::Result<bool> {
    println!(rt; "  {:?}", found)?;
    Ok(true)
}

/// `turns SEAT SPI COUNT`
fn turns<R: Print + Threads + Wait + Sync>(
    rt: &R,
    alloc: Global,
    open: &mut OpenWindow,
    mut words: SplitWhitespace,
) -> anyhow::Result<bool> {
    let Some(place) = next_place(&mut words) else {
        return Ok(false);
    };
    let Some(spi) = next_spi(&mut words) else {
        return Ok(false);
    };
    let Some(count) = next_number(&mut words, 1, 1000) else {
        return Ok(false);
    };
    let all = open.take_turns(rt, alloc, place, spi, count)?;
    for found in all.as_slice() {
        show_found(rt, *found)?;
    }
    Ok(true)
}

/// `race SPI COUNT`
fn race<R: Print + Threads + Wait + Sync>(
    rt: &R,
    alloc: Global,
    open: &mut OpenWindow,
    mut words: SplitWhitespace,
) -> anyhow::Result<bool> {
    let Some(spi) = next_spi(&mut words) else {
        return Ok(false);
    };
    let Some(count) = next_number(&mut words, 1, 1000) else {
        return Ok(false);
    };
    let (first, second) = open.race(rt, alloc, spi, count)?;
    println!(rt; "  versions {first} and {second}")?;
    Ok(true)
}
