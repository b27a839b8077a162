//! Rows that show the texts of records and of tables.
//!
//! Each line of standard input is a row. It is written again, and under it what the crate answers, two spaces in front of
//! each line. An empty line and a line that begins with `#` are written again, and no more.
//!
//! ```text
//! forwarder NAME         the roster has a forwarder more, counted from 0
//! instance NAME          the roster has an instance more, counted from 0
//! records TEXT           the text as records: each entry, and whether their printed lines are the text again; or the refused line
//! table VERSION PATH ..  the text of a table
//!
//! PATH  SPI/HOP/HOP ..   HOP  SI:FORWARDER:INSTANCE, by their numbers, or SI:- where there is no instance
//! ```
//!
//! In a text `\n` stands for the byte 0A.
#![tactic(auto)]

mod input_texts;
mod record_rows;
mod rosters;
mod rows;
mod table_rows;

use sfc_routes::Roster;
use std::io::{self, ErrorKind, Write};

fn main(rt: HostRuntime) -> io::Result<()> {
    let mut roster = Roster::new(rt.alloc());
    for line in rt.lines(rt.alloc()) {
        let line = line?;
        match rows::answer(rt.alloc(), &mut roster, line.as_str()) {
            Ok(answer) => io::writer(&rt).write_all(answer.as_slice())?,
            Err(_) => return Err(io::Error::from(ErrorKind::OutOfMemory)),
        }
    }
    Ok(())
}
