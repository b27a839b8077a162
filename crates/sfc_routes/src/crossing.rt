use crate::rosters::Roster;
use crate::route_changes::RouteChange;
use crate::route_lists::RouteList;
use crate::routes::Route;

fn crosses<T: Send + Sync + Drop>() {}

/// Shows that the types of this crate may be handed to and shared with threads, as soon as it compiles.
pub fn types_cross_threads() {
    crosses::<Roster>();
    crosses::<Route>();
    crosses::<RouteChange>();
    crosses::<RouteList>();
}
