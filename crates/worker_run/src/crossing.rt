use crate::batches::Batch;
use crate::runners::Runner;

fn crosses<T: Send + Sync + Drop>() {}

/// Shows that the types of this crate may be handed to and shared with threads, as soon as it compiles.
pub fn types_cross_threads() {
    crosses::<Batch>();
    crosses::<Runner>();
}
