use thiserror::Error;

/// Why a text is no text of records.
#[derive(Clone, Copy, Debug, PartialEq, Eq, Error)]
pub enum RecordsFault {
    /// The first line that is not in the grammar, counted from 1.
    #[error("a line of the records is refused")]
    Line(u64),
    #[error("no memory")]
    OutOfMemory,
}
