//! Rows of whole runs on threads, under gates that hold lookups and publications until others are so far.
//!
//! Each line of the standard input is a row, and is printed with what it shows below it:
//!
//! ```text
//! # TEXT               what the next rows show
//! : LINE               one more line of the setup
//! capture DIGITS ..    more bytes of the capture, in hexadecimal digits
//! control DIGITS ..    more bytes of the control file
//! both                 the run of these files on two workers. The first lookup of each is held until the other worker asks for
//!                      its first one
//! held LOOKUP VERSION DIGITS ..   the run on one worker, with these bytes behind those of the control file. The lookup of this
//!                      number, counted from 1, is held until this version was published, and the next lookup until the next version
//!                      was; between both versions the publisher is held until that next lookup is asked for
//! ```
//!
//! Of a run the status is shown, the line of each frame, and whether what was waited for came. A thread that waits for another goes on
//! after a number of turns, and a row below says so. A row of another form shows a question mark.
#![tactic(auto)]

mod both_workers;
mod digits;
mod held_lookups;
mod inputs;
mod rows;
mod runs;
mod waits;

use inputs::Inputs;
use rows::take_row;
use std::io;

fn main(rt: HostRuntime) -> io::Result<()> {
    let mut inputs = Inputs::new(rt.alloc());
    for line in rt.lines(rt.alloc()) {
        take_row(&rt, &mut inputs, line?.as_str())?;
    }
    Ok(())
}
