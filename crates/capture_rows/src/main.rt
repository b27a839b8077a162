//! Captures as rows: each line of the input is one capture, and what `pcap_io` makes of it is printed.
//!
//! ```text
//!  read BYTES                                  the frames and the end, whole and in every cutting
//!  fronts BYTES                                how many frames and which end each front of the bytes has
//!  long FORM CAPTURED ORIGINAL GIVEN           one packet of so many bytes, of which so many are there
//!  heads FORM SECONDS FRACTION CAPTURED ORIGINAL    the bytes that stand before the frames and before each frame
//! ```
#![tactic(auto)]

mod forms;
mod readings;
mod rows;

use std::io::{self, BufRead, BufReader};

fn main(rt: HostRuntime) -> io::Result<()> {
    let alloc = rt.alloc();
    for line in BufReader::new(alloc, rt.reader())?.lines(alloc) {
        let text = rows::show(alloc, line?.as_str())?;
        println!(rt; "{text}")?;
    }
    Ok(())
}
