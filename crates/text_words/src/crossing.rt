use crate::line_cursor::TextLines;
use crate::name_text::Name;
use crate::piece_cursor::Pieces;

fn crosses<T: Send + Sync + Drop>() {}

/// Shows that the types of this crate may be handed to and shared with threads, as soon as it compiles.
pub fn types_cross_threads() {
    crosses::<Name>();
    crosses::<TextLines<'static>>();
    crosses::<Pieces<'static>>();
}
