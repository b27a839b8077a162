//! pcapng files as rows: each line of the input is one file, and what `pcapng_io` makes of it is printed.
//!
//! ```text
//!  read BYTES                                      the frames and the end, whole and in every cutting
//!  fronts BYTES                                    how many frames and which end each front of the bytes has
//!  repeat FRONT PATTERN COUNT BACK                 how many frames and which end these have, the pattern so many times
//!  head UNIT                                       the bytes that stand before the packets
//!  encode UNIT SECONDS FRACTION ORIGINAL BYTES     the packet of a frame
//! ```
//!
//! BYTES, FRONT, PATTERN and BACK are hexadecimal digits, or `-`; UNIT is `micro` or `nano`.
#![tactic(auto)]

mod readings;
mod rows;

use std::io::{self, BufRead, BufReader};

fn main(rt: HostRuntime) -> io::Result<()> {
    let alloc = rt.alloc();
    for line in BufReader::new(alloc, rt.reader())?.lines(alloc) {
        let text = rows::show(alloc, line?.as_str())?;
        println!(rt; "{text}")?;
    }
    Ok(())
}
