//! Control files as rows: each line of the input is one file, and what `control_files` makes of it is printed.
//!
//! ```text
//!  read PEERS BYTES                                the segments and the end, whole and in every cutting
//!  fronts PEERS BYTES                              how many segments and which end each front of the bytes has
//!  long KIND LENGTH GIVEN                          one segment of peer 1 of so many bytes, of which so many are there
//!  head KIND PEER MOMENT POSITION LENGTH           the bytes that stand before a segment's own
//! ```
//!
//! PEERS are numbers with commas between them, or `-`; BYTES are hexadecimal digits, or `-`.
#![tactic(auto)]

mod readings;
mod rows;

use std::io::{self, BufRead, BufReader};

fn main(rt: HostRuntime) -> io::Result<()> {
    let alloc = rt.alloc();
    for line in BufReader::new(alloc, rt.reader())?.lines(alloc) {
        let text = rows::show(alloc, line?.as_str())?;
        println!(rt; "{text}")?;
    }
    Ok(())
}
