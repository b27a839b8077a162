//! Rows that show the readers and printers of setups, from the words up to whole texts.
//!
//! Each line of standard input is a row, `KIND|INPUT`. It is written again, and under it what the crates answer, two
//! spaces in front of each line. An empty line and a line that begins with `#` are written again, and no more.
//!
//! ```text
//! number|1|9|07          the word as a number from 1 to 9
//! name|fw-1              the word as a name
//! octets|00fe..          the word as the digits of 8 bytes
//! four|01ff              the word as four digits
//! dash|-                 the word as the digits of 1 to 4 bytes, or a dash
//! run|0a..               the word as the digits of 1 to 300 bytes, or a dash
//! digits|a\n             the digits of the bytes of a text
//! address|192.0.2.1      the word as an address
//! lines|a\nb             the lines of a text
//! pieces|a b             the pieces of a line at its spaces
//! local|65000|1|90       the local side with these numbers
//! keyword|peer           the word as a keyword
//! line|peer 1 2          the line as a statement
//! function|pass          the words as a function: whether it is on metadata
//! keep|TEXT              the text as a setup, which the rows below it use
//! setup|TEXT             the text as a setup, and its printed text
//! before|TEXT            this text in front of the kept one
//! behind|TEXT            this text behind the kept one
//! many|16|LINE|TEXT      behind the kept text 16 times the line, with {n} for 1, 2 and so on and {h} for
//!                        the four digits of 0, 1 and so on, and behind them the text
//! ask|forwarder f0       of the kept setup's roster: forwarder, at, instance, service, target, accepts
//! ```
//!
//! In an input `\n` stands for the byte 0A, and `\x` and two hexadecimal digits for a byte.
#![tactic(auto)]

mod input_texts;
mod read_words;
mod roster_questions;
mod rows;
mod said_lines;
mod whole_texts;

use std::io::{self, ErrorKind, Write};
use wire_base::Bytes;

fn main(rt: HostRuntime) -> io::Result<()> {
    let mut kept = Bytes::new(rt.alloc());
    for line in rt.lines(rt.alloc()) {
        let line = line?;
        match rows::answer(rt.alloc(), &mut kept, line.as_str()) {
            Ok(answer) => io::writer(&rt).write_all(answer.as_slice())?,
            Err(_) => return Err(io::Error::from(ErrorKind::OutOfMemory)),
        }
    }
    Ok(())
}
