//! The routes that peers announce, and the roster of what a setup names.
//!
//! Clauses see a `RouteList` as the list of its routes with their peers (`PeerRoute`), one for a peer and an NLRI, in order:
//!
//! ```text
//!  peer 1   SFIR type 41 RD ..1    SFIR type 42 RD ..2    SFPR SPI 42 RD ..2a with its path
//!  peer 2   SFIR type 41 RD ..1
//! ```
//!
//! and a `Roster` as its three lists (`Entries`), each in the order of adding; a `ForwarderId` or an `InstanceId` is a place in
//! its list, counted from 0.
//!
//! What the layer above uses:
//!
//! - `routes_of` gives what an update means (`ChangeOf`): the `RouteChange` that it makes of its peer's routes.
//! - `RouteList::apply` takes a change in, or changes nothing. The list then has exactly the routes that the last word on
//!   their peer and NLRI announces (`Stands`), whatever the changes were.
//! - `RouteList::len` and `RouteList::entry` walk the routes in order: by peer; SFIRs before SFPRs; SFIRs by service function type,
//!   SFPRs by SPI; then by RD.
//! - An update has one change, every update has one, and changes have one list (`laws`).
//! - `add_forwarder`, `add_instance` and `add_target` of a `Roster` add an entry, or change nothing.
//! - `forwarder_named`, `forwarder_at`, `instance_named` and `instance_at` find one, and answer None
//!   exactly where there is none; `accepts` says whether a route with some targets is taken.
//!
//! A roster keeps `IsRoster`: the form of names, the counts, and that entries differ. A list keeps `IsRouteList`: the order, and that
//! only path routes have a path, which has a spelling. Nothing here counts a peer's routes, chooses among them or does IO.
//!
//! ```text
//! let change = routes_of(alloc, peer, &update)?;
//! let mut routes = RouteList::new(alloc);
//! routes.apply(&change)?;
//! let (peer, route) = routes.entry(0);
//! ```
#![tactic(auto)]

mod announcements;
mod crossing;
mod entries;
mod held_routes;
mod laws;
mod meanings;
mod rosters;
mod route_changes;
mod route_edits;
mod route_keys;
mod route_lists;
mod route_searches;
mod routes;
mod searches;
mod update_parts;
mod update_paths;
mod withdrawals;

pub use crossing::types_cross_threads;
pub use entries::{ForwarderEntry, InstanceEntry, Rd};
pub use laws::{
    a_history_has_one_list, a_name_has_one_route, an_update_has_one_change,
    every_update_has_a_change,
};
pub use meanings::routes_of;
pub use rosters::Roster;
pub use route_changes::RouteChange;
pub use route_lists::RouteList;
pub use routes::Route;
