use crate::entries::Entry;
use crate::publishers::Publisher;
use crate::seats::Seat;
use crate::stores::{Operation, Store};
use crate::tolds::Told;

fn crosses<T: Send + Sync + Drop>() {}

fn moves<T: Send>() {}

/// Shows that the publisher and the seats may be handed to threads, as soon as it compiles.
pub fn types_cross_threads() {
    crosses::<Entry>();
    crosses::<Operation>();
    crosses::<Store>();
    moves::<Told>();
    moves::<Seat>();
    moves::<Publisher>();
}
