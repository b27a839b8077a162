//! Rows of setups and updates, and the table that `select_all` of `route_selection` gives for them.
//!
//! A line of standard input is a row, with single spaces between its words:
//!
//! ```text
//! # TEXT             what the next rows show
//! setup              another setup begins; the routes stay
//! : LINE             a line of its text
//! update PEER HEX    the content of an UPDATE of a peer
//! end PEER           all routes of the peer go
//! select             the table, each hop as SI:FORWARDER:INSTANCE, by their numbers, or SI:- where no instance serves
//! ```
//!
//! Each row is printed again. The answers are written from RFC 4271, RFC 4360, RFC 4760 and RFC 9015.
#![tactic(auto)]

mod rows;

use rows::take_row;
use sfc_routes::RouteList;
use wire_base::Bytes;

fn main(rt: HostRuntime) -> anyhow::Result<()> {
    let mut text = Bytes::new(rt.alloc());
    let mut list = RouteList::new(rt.alloc());
    for row in rt.lines(rt.alloc()) {
        take_row(&rt, rt.alloc(), &mut text, &mut list, row?.as_str())?;
    }
    Ok(())
}
