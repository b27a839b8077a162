use thiserror::Error;

/// Why bytes are no pcapng file: the first field that is refused, or a part that is missing.
///
/// Each is told with a place, the offset in the file of the first byte of the field; `Short` with the number of bytes given.
#[derive(Clone, Copy, Debug, PartialEq, Eq)]
pub enum NgReason {
    /// The first block is no section header, or a section header's mark is in neither byte order.
    Magic,
    /// A block's length is none that its kind may have, or its second length differs from the first.
    Block,
    /// The major version of a section is not 1.
    Version,
    /// An option of an interface description runs past its block, or has not the length that its code has.
    Option,
    /// The resolution of an interface's times is past the limits.
    Resolution,
    /// No interface of this number is described in the section, or a section describes more than 1,024.
    Interface,
    /// The captured length is above 262,144, or past the block.
    Length,
    /// The original length is below the captured one, or above 2,147,483,647.
    Original,
    /// The time has seconds below 0 or above 4,294,967,295.
    Time,
    /// The bytes end inside a block.
    Short,
}

/// A reason, and the place where it stands.
#[derive(Clone, Copy, Debug, PartialEq, Eq)]
pub struct NgRefusal {
    pub place: u64,
    pub reason: NgReason,
}

/// Why no frame is given.
#[derive(Clone, Copy, Debug, PartialEq, Eq, Error)]
pub enum NgFault {
    /// The bytes are no pcapng file, at this place for this reason.
    #[error("the bytes are no pcapng file")]
    Bad(u64, NgReason),
    #[error("no memory")]
    OutOfMemory,
}
