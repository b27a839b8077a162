use sfc_desk::Port;

/// Why a run stops before its end.
#[derive(Clone, Copy, Debug, PartialEq, Eq)]
pub enum Halt {
    /// A call on the port failed.
    File(Port),
    /// The input has more bytes than are read of it.
    Long(Port),
    OutOfMemory,
}
