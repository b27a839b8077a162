ghost use Rattle.std.specs.Prelude.{◌≡◌, ◌≢◌, ◌<◌, ◌≤◌, min, length, slice_index, MatchBool};
ghost use Rattle.bgp_messages.specs.Headers.{LengthFits, Unfit};
ghost use Rattle.bgp_messages.specs.HeadSteps.{FirstUnmarked, IsKindOf, HeadGives, number};
ghost use Rattle.bgp_messages.specs.Messages.{type_of};

use crate::messages::Message;
use crate::refusals::Fault;
use wire_base::be_u16;

/// The bytes of a message header: marker, length, type (RFC 4271, section 4.1).
pub(crate) const HEADER: u16 = 19;

/// The most bytes of a message.
const MOST: u16 = 4096;

/// Each byte of the marker, and how many there are.
pub(crate) const MARK: u8 = 0xFF;

pub(crate) const MARKS: usize = 16;

/// The four types of messages.
#[derive(Clone, Copy, Debug)]
pub(crate) enum Kind {
    Open,
    Update,
    Notification,
    KeepAlive,
}

impl Kind {
    /// The type of a message.
    pub(crate) fn of_message(message: &Message) -> Kind
        ensures { number result ≡ type_of message.now }
    {
        match message {
            Message::Open(_) => Kind::Open,
            Message::Update(_) => Kind::Update,
            Message::Notification(_) => Kind::Notification,
            Message::KeepAlive => Kind::KeepAlive,
        }
    }

    /// The number of the type.
    pub(crate) fn number(self) -> u8
        ensures { result ≡ number self }
    {
        match self {
            Kind::Open => 1,
            Kind::Update => 2,
            Kind::Notification => 3,
            Kind::KeepAlive => 4,
        }
    }

    fn of(byte: u8) -> Option<Kind>
        ensures { IsKindOf byte result }
    {
        match byte {
            1 => Some(Kind::Open),
            2 => Some(Kind::Update),
            3 => Some(Kind::Notification),
            4 => Some(Kind::KeepAlive),
            _ => None,
        }
    }

    /// Whether a message of this type may have this length.
    fn has(self, length: u16) -> bool
        ensures { MatchBool result (LengthFits (number self) length) (Unfit (number self) length) }
    {
        match self {
            Kind::Open => length >= 29,
            Kind::Update => length >= 23,
            Kind::Notification => length >= 21,
            Kind::KeepAlive => length == HEADER,
        }
    }
}

/// What the bytes at hand show of the next message's header.
pub(crate) enum HeadStep {
    /// A message, of which bytes are still to come.
    Wait,
    Refused(Fault),
    /// A message of this type and length, all of it.
    Whole(Kind, u16),
}

/// The place of the first byte of the marker that is there and is not FF.
fn first_unmarked(bytes: &[u8]) -> Option<u16>
    ensures { FirstUnmarked bytes.now result }
{
    let marker = &bytes[..bytes.len().min(MARKS)];
    for (place, byte) in marker.iter().enumerate() {
        if *byte != MARK {
            return Some(place as u16);
        }
    }
    None
}

/// Reads the header field by field (RFC 4271, section 6.1).
pub(crate) fn head_step(bytes: &[u8]) -> HeadStep
    ensures { HeadGives bytes.now result }
{
    if let Some(place) = first_unmarked(bytes) {
        return HeadStep::Refused(Fault::Marker(place));
    }
    if bytes.len() < 18 {
        return HeadStep::Wait;
    }
    let length = be_u16(&bytes[16..]);
    if length < HEADER || MOST < length {
        return HeadStep::Refused(Fault::Length(bytes[16], bytes[17]));
    }
    if bytes.len() < 19 {
        return HeadStep::Wait;
    }
    let Some(kind) = Kind::of(bytes[18]) else {
        return HeadStep::Refused(Fault::Type(bytes[18]));
    };
    if !kind.has(length) {
        return HeadStep::Refused(Fault::Length(bytes[16], bytes[17]));
    }
    if bytes.len() < usize::from(length) {
        return HeadStep::Wait;
    }
    HeadStep::Whole(kind, length)
}
