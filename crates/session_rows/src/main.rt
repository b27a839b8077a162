//! Rows of events of a session, and what `session_machine` makes of them.
//!
//! Each line of the standard input is a row, and is printed with what it shows below it:
//!
//! ```text
//! # TEXT               what the next rows show
//! session HOLD ASN     a new session: AS 65000 with identifier 192.0.2.1 and this hold time, and peer 1 of that AS
//! connect MOMENT
//! bytes MOMENT HEX     with - for no bytes
//! close MOMENT
//! ```
//!
//! An event shows the bytes that are sent, and for each change whether all routes go, how many are withdrawn and how many
//! announced. The answers are written from RFC 4271 and RFC 4486 in this project's profile. A row of another form shows a
//! question mark.
#![tactic(auto)]

mod rows;

use bgp_session::Local;
use rows::take_row;
use session_machine::Session;

fn main(rt: HostRuntime) -> anyhow::Result<()> {
    let Some(local) = Local::of(65000, 0xC000_0201, 90) else {
        return Ok(());
    };
    let mut session = Session::new(rt.alloc(), local, 1, 65001);
    for line in rt.lines(rt.alloc()) {
        take_row(&rt, rt.alloc(), &mut session, line?.as_str())?;
    }
    Ok(())
}
