use crate::feeds::ControlFeed;
use crate::segments::Segment;

fn crosses<T: Send + Sync + Drop>() {}

/// Shows that the types of this crate may be handed to and shared with threads, as soon as it compiles.
pub fn types_cross_threads() {
    crosses::<Segment>();
    crosses::<ControlFeed>();
}
