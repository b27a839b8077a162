ghost use Rattle.std.specs.Prelude.{◌≡◌, ◌+◌, ◌<◌, ◌^◌, [], ◌∷◌};
ghost use Rattle.bgp_messages.specs.Refusals.{told_in, moved};
ghost use Rattle.bgp_messages.specs.Faults.{told_of};

use arrayvec::ArrayVec;

/// Why a stream is refused: what a NOTIFICATION would say (RFC 4271, sections 6.1 and 6.2), and where.
#[derive(Debug, Drop)]
pub struct Refusal {
    pub code: u8,
    pub subcode: u8,
    /// The first byte of the refused field, counted from the feed's first byte.
    pub place: u64,
    /// The data of the NOTIFICATION.
    pub info: ArrayVec<u8, 2>,
}

/// What is refused in a message. Places are counted from the message's first byte.
#[derive(Clone, Copy, Debug)]
pub(crate) enum Fault {
    /// The byte of the marker at this place is not FF.
    Marker(u16),
    /// The length field has these two bytes, and no message of its type has this length.
    Length(u8, u8),
    /// The type field has this byte.
    Type(u8),
    /// An OPEN's version is not 4.
    Version,
    /// An OPEN's hold time is 1 or 2.
    HoldTime,
    /// An OPEN's identifier is 0.
    Identifier,
    /// An OPEN's parameters are malformed at this place.
    Malformed(u16),
    /// The parameter at this place is of another type than 2.
    Parameter(u16),
}

/// Error codes (RFC 4271, section 4.5).
const MESSAGE_HEADER_ERROR: u8 = 1;

const OPEN_MESSAGE_ERROR: u8 = 2;

/// Subcodes of a message header error (RFC 4271, section 6.1).
const CONNECTION_NOT_SYNCHRONIZED: u8 = 1;

const BAD_MESSAGE_LENGTH: u8 = 2;

const BAD_MESSAGE_TYPE: u8 = 3;

/// Subcodes of an OPEN message error (RFC 4271, section 6.2).
const UNSPECIFIC: u8 = 0;

const UNSUPPORTED_VERSION_NUMBER: u8 = 1;

const BAD_BGP_IDENTIFIER: u8 = 3;

const UNSUPPORTED_OPTIONAL_PARAMETER: u8 = 4;

const UNACCEPTABLE_HOLD_TIME: u8 = 6;

/// The largest version number that is spoken, as a NOTIFICATION says it.
const VERSION_DATA: [u8; 2] = [0, 4];

fn no_info() -> ArrayVec<u8, 2>
    ensures { result.items ≡ [] }
{
    ArrayVec::new()
}

fn one_byte(byte: u8) -> ArrayVec<u8, 2>
    ensures { result.items ≡ byte ∷ [] }
{
    let mut info = ArrayVec::new();
    info.push(byte);
    info
}

impl Fault {
    /// What is told of this fault in a message that begins after `used` bytes of the stream.
    pub(crate) fn refusal(self, used: u64) -> Refusal
        requires { used + (told_of self).place < 2 ^ 64 }
        ensures { told_in result ≡ moved used (told_of self) }
    {
        let (code, subcode, place, info) = match self {
            Fault::Marker(at) => (
                MESSAGE_HEADER_ERROR,
                CONNECTION_NOT_SYNCHRONIZED,
                at,
                no_info(),
            ),
            Fault::Length(high, low) => (
                MESSAGE_HEADER_ERROR,
                BAD_MESSAGE_LENGTH,
                16,
                ArrayVec::from([high, low]),
            ),
            Fault::Type(kind) => (MESSAGE_HEADER_ERROR, BAD_MESSAGE_TYPE, 18, one_byte(kind)),
            Fault::Version => (
                OPEN_MESSAGE_ERROR,
                UNSUPPORTED_VERSION_NUMBER,
                19,
                ArrayVec::from(VERSION_DATA),
            ),
            Fault::HoldTime => (OPEN_MESSAGE_ERROR, UNACCEPTABLE_HOLD_TIME, 22, no_info()),
            Fault::Identifier => (OPEN_MESSAGE_ERROR, BAD_BGP_IDENTIFIER, 24, no_info()),
            Fault::Malformed(at) => (OPEN_MESSAGE_ERROR, UNSPECIFIC, at, no_info()),
            Fault::Parameter(at) => (
                OPEN_MESSAGE_ERROR,
                UNSUPPORTED_OPTIONAL_PARAMETER,
                at,
                no_info(),
            ),
        };
        Refusal {
            code,
            subcode,
            place: used + u64::from(place),
            info,
        }
    }
}
