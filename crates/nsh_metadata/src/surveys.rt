//! How the items of a header stand in the bytes that are there.

ghost use Rattle.std.specs.Prelude.{◌≡◌, ◌<◌, ◌≤◌, length};
ghost use Rattle.nsh_metadata.specs.Survey.{Surveys};

use crate::items::size_at;

/// What a walk over the items finds.
pub(crate) enum Survey {
    /// All items are there and end where the header does. The number is how many there are.
    Whole(usize),
    /// The bytes end before the items do.
    Cut,
    /// The item at this place passes the header's end.
    Past(usize),
}

/// Walks over the items in the bytes behind a header's first 8, of which the header has `room`.
pub(crate) fn walk_items(bytes: &[u8], room: usize) -> Survey
    ensures { Surveys bytes.now room result }
{
    let mut at = 0;
    let mut count = 0;
    while at < room {
        let rest = bytes.split_at(at).1;
        if rest.len() < 4 {
            return Survey::Cut;
        }
        let size = size_at(rest);
        if size > room - at {
            return Survey::Past(at);
        }
        if size > rest.len() {
            return Survey::Cut;
        }
        at += size;
        count += 1;
    }
    Survey::Whole(count)
}
