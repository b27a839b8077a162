use thiserror::Error;

/// Why a line of a setup is refused: the first reason that holds, in this order.
#[derive(Clone, Copy, Debug, PartialEq, Eq)]
pub enum SetupReason {
    /// A byte outside 20 to 7E.
    Byte,
    /// The first word begins no statement.
    Word,
    /// The words do not fit the statement, in form, number or range.
    Shape,
    /// One more than a limit.
    Count,
    /// A name that is not declared above.
    Name,
    /// What was said before: a second `local` or `ingress`, or a name, number, address, target, or RD and type again.
    Twice,
    /// A proxy with a function on metadata.
    Mode,
    /// After all lines, told at line 0: no local side, no forwarder or no ingress.
    Missing,
    /// A peer that was asked for is none of the setup. No text is refused for this.
    NoPeer,
}

/// Why a text is no setup.
#[derive(Clone, Copy, Debug, PartialEq, Eq, Error)]
pub enum SetupFault {
    /// The first refused line, counted from 1, or 0 where a part is missing, and its first reason.
    #[error("a line of the setup is refused")]
    Line(u64, SetupReason),
    #[error("no memory")]
    OutOfMemory,
}

/// Why a line is not taken.
#[derive(Clone, Copy, Debug, PartialEq, Eq)]
pub(crate) enum LineFault {
    Reason(SetupReason),
    OutOfMemory,
}
