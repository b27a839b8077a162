//! The rows of many lookups.

use crate::desks::Desk;
use crate::open_windows::OpenWindow;
use crate::sums::sum_by_table;
use crate::words::next_number;
use std::str::SplitWhitespace;
use std::thread::Threads;

/// `sum SEATS COUNT`
pub(crate) fn sum<R: Print + Threads + Sync>(
    rt: &R,
    desk: &mut Desk,
    mut words: SplitWhitespace,
) -> anyhow::Result<bool> {
    let Some(open) = &mut desk.open else {
        return Ok(false);
    };
    let Some(seats) = next_number(&mut words, 0, 2) else {
        return Ok(false);
    };
    let Some(count) = next_number(&mut words, 0, 1_000_000_000) else {
        return Ok(false);
    };
    match seats {
        0 => println!(rt; "  {}", sum_by_table(&desk.table, count)?)?,
        1 => println!(rt; "  {}", open.sum(count)?)?,
        _ => show_sums(rt, open, count)?,
    }
    Ok(true)
}

fn show_sums<R: Print + Threads + Sync>(
    rt: &R,
    open: &mut OpenWindow,
    count: u64,
) -> anyhow::Result<()> {
    let (first, second) = open.sums(rt, count)?;
    println!(rt; "  {first} and {second}")?;
    Ok(())
}
