//! Rows that show the texts of routes.
//!
//! Each line of standard input is a row. It is written again, and under it what the crate answers, two spaces in front of
//! each line. An empty line and a line that begins with `#` are written again, and no more.
//!
//! ```text
//! text TEXT                            the text as routes: each route, and whether they are printed as they were read; or the refused line
//! many COUNT|FRONT|PIECE|BEHIND        the same of a front, so many pieces and what stands behind them, without the routes;
//!                                      in a piece {h} stands for the four digits of its number, counted from 0
//! ```
//!
//! In a text `\n` stands for the byte 0A. The answers are written from the grammar of the texts, in the form that `{:?}` prints.
#![tactic(auto)]

mod input_texts;
mod rows;

use std::io::{self, ErrorKind, Write};

fn main(rt: HostRuntime) -> io::Result<()> {
    for line in rt.lines(rt.alloc()) {
        let line = line?;
        match rows::answer(rt.alloc(), line.as_str()) {
            Ok(answer) => io::writer(&rt).write_all(answer.as_slice())?,
            Err(_) => return Err(io::Error::from(ErrorKind::OutOfMemory)),
        }
    }
    Ok(())
}
