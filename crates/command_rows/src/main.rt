//! Rows of whole commands over a desk in memory, and how each ends.
//!
//! Each line of the standard input is a row. An empty line and one that begins with `#` say nothing, and a file is kept for
//! the desks behind it; each other row is printed, with what it shows below it.
//!
//! ```text
//! file NAME DIGITS ..       a file, in hexadecimal digits
//! text NAME WORD ..         one more line of a file of text
//! frames NAME COUNT         a capture of so many frames, each of the 60 bytes 00, 01 .. 3B, at second 1 and microsecond 2
//! desk PIECE ROOM CALL ..   a new desk with all files so far, reads of at most so many bytes and so much room for each
//!                           output, whose calls of these numbers, counted from 0, fail
//! bind PORT NAME DIGITS ..  a call of the desk itself, and for an output the bytes that are then written
//! read PORT NAME LIMIT      a bind, and all bytes of the input, of which there are at most LIMIT
//! stations SPI COUNT        the end of a frame's walk over a path of so many functions, station by station
//! sfc WORD ..               the command of these words over the desk, where `""` is the empty word: its status and number,
//!                           and the bytes of each output that has any, those of Report as text
//! fails PIECE ROOM WORD ..  the command of these words over desks with all files so far, of which each fails at another call, from the first to
//!                           the last that is made: each status and number once, and each call behind which an output holds no front
//! ```
//!
//! A row of another form is printed with a question mark.
#![tactic(auto)]

mod desks;
mod digits;
mod failures;
mod named_files;
mod ports;
mod rows;
mod statuses;

use rows::Rows;
use std::io;

fn main(rt: HostRuntime) -> io::Result<()> {
    let mut rows = Rows::new(rt.alloc());
    for line in rt.lines(rt.alloc()) {
        rows.take(&rt, line?.as_str())?;
    }
    Ok(())
}
