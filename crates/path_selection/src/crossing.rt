use crate::answers::Answer;
use crate::changes::Change;
use crate::hops::HopRow;
use crate::lookups::Found;
use crate::path_tables::Table;
use crate::paths::Path;
use crate::scripts::Script;

fn crosses<T: Send + Sync + Drop>() {}

/// Shows that the types of this crate may be handed to and shared with threads, as soon as it compiles.
pub fn types_cross_threads() {
    crosses::<HopRow>();
    crosses::<Path>();
    crosses::<Table>();
    crosses::<Change>();
    crosses::<Answer>();
    crosses::<Found>();
    crosses::<Script>();
}
