//! Rows of functions, and what `service_functions` and `sfc_proxy` leave of a frame and its header.
//!
//! Each line of the standard input is a row. One that begins with `#` is printed. A frame, a header and a list of cuts are kept for
//! the rows behind them; each other row is printed, with what it shows below it.
//!
//! ```text
//! frame ROOM ORIGINAL DIGITS ..   a frame in hexadecimal digits, its room and its length on the wire
//! zeros ROOM ORIGINAL COUNT       the same, of so many bytes 0
//! header DIGITS                   a header
//! cuts COUNT ..                   so many first bytes of a frame
//! serve FUNCTION ..               the answer, the length on the wire, the frame's bytes and the header's; both are kept
//! aware FUNCTION ..               the same by an instance that sees the header, then where the header lies as its bytes
//! proxy FUNCTION ..               the same by an instance behind a proxy
//! cut serve FUNCTION ..           each cut of the frame that is not longer than it, served with no byte more on the wire
//! cut aware FUNCTION ..           the same by an instance; what it leaves is not kept
//! cut proxy FUNCTION ..
//!
//! FUNCTION  in the words of a setup
//! ```
//!
//! A row of another form is printed with a question mark.
#![tactic(auto)]

mod calls;
mod rows;
mod texts;

use rows::Rows;
use std::io;

fn main(rt: HostRuntime) -> io::Result<()> {
    let mut rows = Rows::new(rt.alloc());
    for line in rt.lines(rt.alloc()) {
        rows.take(&rt, line?.as_str())?;
    }
    Ok(())
}
