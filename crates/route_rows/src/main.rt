//! Rows of updates and of the ends of sessions, run through `routes_of` and a `RouteList` of `sfc_routes`.
//!
//! A line of standard input is a row, with single spaces between its words:
//!
//! ```text
//! # TEXT                  what the next rows show; printed again
//! update PEER HEX         the content of an UPDATE of a peer: its change, which the list then takes in
//! end PEER                the end of the peer's session: all of its routes go
//! fill PEER COUNT up      so many changes, each of which announces one route, by rising RDs, or `down` by falling ones
//! empty PEER COUNT up     the same with withdrawals
//! list                    the routes of the list
//! count                   how many there are, the first and the last
//! ```
//!
//! The answers are written from RFC 4271, RFC 4360, RFC 4760 and RFC 9015, in the form that `{:?}` prints.
#![tactic(auto)]

mod made_changes;
mod rows;

use rows::take_row;
use sfc_routes::RouteList;

fn main(rt: HostRuntime) -> anyhow::Result<()> {
    let mut list = RouteList::new(rt.alloc());
    for row in rt.lines(rt.alloc()) {
        take_row(&rt, rt.alloc(), &mut list, row?.as_str())?;
    }
    Ok(())
}
