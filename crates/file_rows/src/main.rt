//! Rows of calls of the desk over files, in the folder where it runs, and what each answers.
//!
//! Each line of the standard input is a row, which is printed, with what it shows below it. An empty line and one that begins
//! with `#` say nothing.
//!
//! ```text
//! desk                     another desk, of which nothing is bound
//! bind PORT NAME           a bind
//! write PORT NAME WORD     a bind of an output, and the word written to it
//! read PORT NAME COUNT     a bind of an input, and reads of at most so many bytes, up to one that moves none
//! link NAME OTHER          a second name of a file
//! size NAME                how many bytes a file has
//! remove NAME              a file no longer
//! ```
//!
//! A row of another form is printed with a question mark.
#![tactic(auto)]

mod ports;
mod rows;

use sfc_desk::FileDesk;
use std::io::{self, ErrorKind};

fn main(rt: HostRuntime) -> io::Result<()> {
    let Ok(mut desk) = FileDesk::new(rt.alloc(), rt.clone()?, rt.stdout()) else {
        return Err(io::Error::from(ErrorKind::OutOfMemory));
    };
    for line in rt.lines(rt.alloc()) {
        let line = line?;
        rows::print_row(&rt, line.as_str())?;
        if line.as_str() == "desk" {
            let Ok(other) = FileDesk::new(rt.alloc(), rt.clone()?, rt.stdout()) else {
                return Err(io::Error::from(ErrorKind::OutOfMemory));
            };
            desk = other;
        } else {
            rows::show(&rt, &mut desk, line.as_str())?;
        }
    }
    Ok(())
}
