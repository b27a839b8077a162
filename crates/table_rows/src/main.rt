//! Rows of changes and questions, and what a table of `path_selection` makes of them.
//!
//! Each line of the standard input is a row. An empty line and one that begins with `#` say nothing; each other row is
//! printed, with what it shows below it.
//!
//! ```text
//! put SPI HOP ..     a path joins the table, or stands in place of the one with its identifier
//! cut SPI            the path with the identifier goes
//! ask SPI SI         what the table says of an identifier and an index
//! table              the paths of the table
//!
//! HOP  SI:FORWARDER:INSTANCE, by their numbers, or SI:- where there is no instance
//! ```
//!
//! A row of another form, and one whose hops are none of a path, is answered with a question mark.
#![tactic(auto)]

mod rows;
mod words;

use path_selection::Table;
use rows::take_row;
use std::io;

fn main(rt: HostRuntime) -> io::Result<()> {
    let mut table = Table::empty(rt.alloc());
    for line in rt.lines(rt.alloc()) {
        take_row(&rt, rt.alloc(), &mut table, line?.as_str())?;
    }
    Ok(())
}
