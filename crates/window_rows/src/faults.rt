use thiserror::Error;
use wire_base::OutOfMemory;

/// Why the program ends before its rows do.
#[derive(Clone, Copy, Debug, Error)]
pub(crate) enum Fault {
    #[error("there is no memory")]
    OutOfMemory,
    #[error("a lookup was refused")]
    Refused,
    #[error("a lookup named an older version than the one before")]
    OlderVersion,
    #[error("an answer is not that of the version that it names")]
    OtherAnswer,
    #[error("a publication made another version than the next one")]
    OtherVersion,
    #[error("a thread waited for another one in vain")]
    OutOfTurns,
}

impl From<OutOfMemory> for Fault {
    fn from(_fault: OutOfMemory) -> Fault {
        Fault::OutOfMemory
    }
}
