use crate::feeds::NgFeed;
use crate::frames::NgFrame;

fn crosses<T: Send + Sync + Drop>() {}

/// Shows that the types of this crate may be handed to and shared with threads, as soon as it compiles.
pub fn types_cross_threads() {
    crosses::<NgFrame>();
    crosses::<NgFeed>();
}
