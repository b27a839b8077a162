//! Rows of a window over a table of service paths, and what its seats find.
//!
//! Each line of the standard input is a row, and is printed with what it shows below it:
//!
//! ```text
//! # TEXT                   what the next rows show
//! put SPI N                a change waits: the path with this identifier has its hops 255, 254 and 253 at forwarder N, by
//!                          the instances 10 N, 10 N + 1 and 10 N + 2
//! cut SPI                  a change waits: the path with this identifier goes
//! seats COUNT VERSION N SPI   opens a window with so many seats on a table of this path by N, looks its hop 255 up from
//!                          each seat that it gave, and closes it
//! begin VERSION N SPI ..   opens a window with two seats on a table of these paths by N; one that is open is closed
//! publish                  publishes the changes that wait as one list; what it tells waits
//! learn SEAT               seat 1 or 2 learns what was told last, of what waits
//! forget                   what was told and waits is dropped
//! look SEAT SPI SI         the seat looks up
//! beside SEAT SPI SI       the seat looks up in a thread of its own
//! turns SEAT SPI COUNT     the seat looks hop 255 up in one thread, and another one publishes so many lists, in turn
//! race SPI COUNT           both seats look hop 255 up in threads of their own, and another one publishes so many lists
//! refuse                   publishes twice and closes, and shows which of the three were refused for want of memory
//! close                    closes the window, and shows its table and version
//! sum SEATS COUNT          looks so many hops of paths 1 to 1000 up, in the table that the last window opened with (SEATS is
//!                          0), from the first seat (1), or from both, each in a thread of its own (2); shows the sum of
//!                          the instances
//! ```
//!
//! A list of `turns` and `race` puts one path, by the remainder of its version by 200, and each lookup has to answer by
//! the version that it names. A thread that waits for another gives up after a number of turns. That, a lookup that is
//! refused and want of memory end the program, but for `refuse`. A row of another form shows a question mark.
#![tactic(auto)]

mod desks;
mod faults;
mod gates;
mod looks;
mod open_rows;
mod open_windows;
mod openings;
mod paths;
mod races;
mod rows;
mod sum_rows;
mod sums;
mod turns;
mod words;

use desks::Desk;
use rows::take_row;
use std::sync::Wait;
use std::thread::Threads;

/// Takes all rows of the standard input.
fn take_rows<R: Input + Print + Threads + Wait + Sync>(
    rt: &R,
    desk: &mut Desk,
) -> anyhow::Result<()> {
    for line in rt.lines(desk.alloc) {
        take_row(rt, desk, line?.as_str())?;
    }
    Ok(())
}

fn main(rt: HostRuntime) -> anyhow::Result<()> {
    let mut desk = Desk::new(rt.alloc());
    let told = take_rows(&rt, &mut desk);
    desk.leave(&rt);
    told
}
