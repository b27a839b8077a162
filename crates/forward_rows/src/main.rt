//! Rows of frames over setups and tables, and what the forwarder makes of them: the record of each walk, the frame that it leaves,
//! and the packets that one forwarder hands to another.
//!
//! Each line of the standard input is a row, and is printed with what it shows below it. An empty line and one that begins with
//! `#` say nothing.
//!
//! ```text
//! new                                no line of a setup, no path and no frame from here on
//! put SPI HOP ..                     a path joins the table
//! then SPI HOP ..                    a path joins the table that is published behind it
//! frame ORIGINAL CAPTURED DIGITS     a frame more: its length on the wire, and how many bytes are captured: those of the digits,
//!                                    and bytes 0 behind them
//! still VERSION                      each frame over the table: its record line, what is left, and the packets handed on
//! script VERSION                     the same, where the first lookup of all is answered by the table, and the others by the one
//!                                    behind it, with the next version; both tables are then gone
//! lines VERSION COUNT                the record lines alone of so many frames over the table: those of the rows in turn
//! LINE                               any other row is a line more of the setup
//!
//! HOP  SI:FORWARDER:INSTANCE, by their numbers, or SI:- where there is no instance
//! ```
//!
//! What is left is shown as `frame ORIGINAL CAPTURED DIGITS`, and a packet as `packet CAPTURED DIGITS`, with the digits of at most
//! 160 bytes. A record that names an instance that the setup does not have is shown by numbers. A row of another form is
//! answered with a question mark, and so is a frame that is longer captured than on the wire.
#![tactic(auto)]

mod frame_rows;
mod known_names;
mod rows;
mod scripts;
mod walks;
mod words;

use rows::Rows;

fn main(rt: HostRuntime) -> anyhow::Result<()> {
    let mut rows = Rows::new(rt.alloc());
    for line in rt.lines(rt.alloc()) {
        rows.take(&rt, line?.as_str())?;
    }
    Ok(())
}
