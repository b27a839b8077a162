ghost use Rattle.std.specs.Prelude.{◌≡◌};
ghost use Rattle.bgp_update.specs.declared.faults.UpdateFault.TheVariants.{OutOfMemory as NoMemory};
ghost use Rattle.bgp_update.specs.Faults.{Tells};

use wire_base::OutOfMemory;

/// Why no update was read.
#[derive(Clone, Copy, Debug, PartialEq, Eq)]
pub enum UpdateFault {
    /// The session is to end with a NOTIFICATION of this code and subcode. The place is counted from the first byte
    /// behind the message header.
    Session(u8, u8, u64),
    OutOfMemory,
}

impl From<OutOfMemory> for UpdateFault {
    ghost from_gives = { λ _ e. e ≡ NoMemory };

    fn from(_fault: OutOfMemory) -> UpdateFault {
        UpdateFault::OutOfMemory
    }
}

/// The error code of an UPDATE (RFC 4271, section 4.5).
pub const UPDATE_MESSAGE_ERROR: u8 = 3;

/// Its subcode for what can't be cut into attributes and routes (RFC 4271, section 6.3).
pub const MALFORMED_ATTRIBUTE_LIST: u8 = 1;

/// The fault that is told of the place.
pub(crate) fn malformed(place: u64) -> UpdateFault
    ensures { Tells (λ told. told ≡ place) result }
{
    UpdateFault::Session(UPDATE_MESSAGE_ERROR, MALFORMED_ATTRIBUTE_LIST, place)
}
