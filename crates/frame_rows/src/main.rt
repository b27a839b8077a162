//! Rows of frames, edits and rules, and what `net_frames` and `classifier` make of them.
//!
//! Each line of the standard input is a row. An empty line and one that begins with `#` say nothing, and a frame is kept for
//! the rows behind it; each other row is printed, with what it shows below it.
//!
//! ```text
//! frame NAME DIGITS ..      a frame, in hexadecimal digits
//! zeros NAME COUNT          a frame of so many bytes 0
//! fields FRONT              the fields of a frame that is captured whole
//! cut-fields FRONT          the same of each of its fronts, from none to all of its bytes
//! edit ROOM EDIT ..         a frame with room for so many bytes, edited in turn: after each edit how it went, the length
//!                           on the wire and the bytes
//! cut-edit FRONT EDIT ..    the bytes that the edits leave of each front of a frame
//! rule WORD ..              one more rule, in the words of a setup
//! no-rules                  an empty list of rules
//! rules                     the rules, by their VLAN identifiers and actions
//! verdicts FRONT ..         the verdicts on frames
//!
//! FRONT  NAME, or NAME:COUNT for its first bytes
//! EDIT   fill=FRONT/ORIGINAL, dscp=NUMBER, source=ADDRESS, destination=ADDRESS, hoplimit, push-vlan=NUMBER or pop-vlan
//! ```
//!
//! A row of another form is printed with a question mark.
#![tactic(auto)]

mod edits;
mod named_frames;
mod rows;
mod rules;
mod texts;

use rows::Rows;
use std::io;

fn main(rt: HostRuntime) -> io::Result<()> {
    let mut rows = Rows::new(rt.alloc());
    for line in rt.lines(rt.alloc()) {
        rows.take(&rt, line?.as_str())?;
    }
    Ok(())
}
