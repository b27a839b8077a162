ghost use Rattle.std.specs.Prelude.{◌≡◌, ◌≤◌, ◌<◌, ◌+◌, ◌^◌, length, IfOk, MatchBool};
ghost use Rattle.bgp_messages.specs.Refusals.{BadHold};
ghost use Rattle.bgp_messages.specs.HeadSteps.{number};
ghost use Rattle.bgp_messages.specs.Headers.{LengthFits};
ghost use Rattle.bgp_messages.specs.Contents.{CapabilitiesGive, ParametersGive, OpenGives, ContentGives};
ghost use Rattle.bgp_messages.specs.declared.contents.ContentFault.TheVariants.{OutOfMemory as NoMemory};

use crate::headers::Kind;
use crate::items::item_of;
use crate::messages::Message;
use crate::notices::Notice;
use crate::opens::{Capability, Open, Param};
use crate::refusals::Fault;
use std::alloc::Global;
use wire_base::{Bytes, List, OutOfMemory, be_u16, be_u32};

/// The version of BGP (RFC 4271, section 4.2).
pub(crate) const VERSION: u8 = 4;

/// The least hold time that is not 0 (RFC 4271, section 4.2).
const LEAST_HOLD: u16 = 3;

/// The type of a parameter that holds capabilities (RFC 5492, section 4).
pub(crate) const CAPABILITIES: u8 = 2;

/// Where the length of an OPEN's parameters stands in the message.
const SIZE_PLACE: u16 = 28;

/// Where an OPEN's parameters begin in the message.
const PARAMETERS_PLACE: u16 = 29;

/// Why no content was read.
#[derive(Debug, Drop)]
pub(crate) enum ContentFault {
    Refused(Fault),
    OutOfMemory,
}

impl From<OutOfMemory> for ContentFault {
    ghost from_gives = { λ _ e. e ≡ NoMemory };

    fn from(_fault: OutOfMemory) -> ContentFault {
        ContentFault::OutOfMemory
    }
}

/// The capabilities that fill the value of a parameter, which begins at the place.
fn read_capabilities(
    alloc: Global,
    place: u16,
    value: &[u8],
) -> Result<List<Capability>, ContentFault>
    requires { place + length value.now < 2 ^ 16 }
    ensures { CapabilitiesGive place value.now result }
{
    let mut caps = List::new(alloc);
    let mut rest = value;
    while !rest.is_empty() {
        let Some(item) = item_of(rest) else {
            let before = (value.len() - rest.len()) as u16;
            return Err(ContentFault::Refused(Fault::Malformed(place + before)));
        };
        let body = Bytes::copy_of(alloc, item.value)?;
        caps.push(Capability {
            code: item.code,
            body,
        })?;
        rest = item.rest;
    }
    Ok(caps)
}

/// The parameters that fill the bytes.
fn read_parameters(alloc: Global, bytes: &[u8]) -> Result<List<Param>, ContentFault>
    requires { length bytes.now < 256 }
    ensures { ParametersGive bytes.now result }
{
    let mut params = List::new(alloc);
    let mut rest = bytes;
    while !rest.is_empty() {
        let place = PARAMETERS_PLACE + (bytes.len() - rest.len()) as u16;
        let Some(item) = item_of(rest) else {
            return Err(ContentFault::Refused(Fault::Malformed(place)));
        };
        if item.code != CAPABILITIES {
            return Err(ContentFault::Refused(Fault::Parameter(place)));
        }
        let caps = read_capabilities(alloc, place + 2, item.value)?;
        params.push(Param { caps })?;
        rest = item.rest;
    }
    Ok(params)
}

/// Whether a session may have this hold time.
fn is_acceptable(hold: u16) -> bool
    ensures { MatchBool result (¬ BadHold hold) (BadHold hold) }
{
    hold == 0 || hold >= LEAST_HOLD
}

/// An OPEN from its content (RFC 4271, section 6.2).
fn read_open(alloc: Global, content: &[u8]) -> Result<Open, ContentFault>
    requires { 10 ≤ length content.now }
    ensures { OpenGives content.now result }
{
    if content[0] != VERSION {
        return Err(ContentFault::Refused(Fault::Version));
    }
    let hold = be_u16(&content[3..]);
    if !is_acceptable(hold) {
        return Err(ContentFault::Refused(Fault::HoldTime));
    }
    let id = be_u32(&content[5..]);
    if id == 0 {
        return Err(ContentFault::Refused(Fault::Identifier));
    }
    let params = &content[10..];
    if usize::from(content[9]) != params.len() {
        return Err(ContentFault::Refused(Fault::Malformed(SIZE_PLACE)));
    }
    let params = read_parameters(alloc, params)?;
    let my_as = be_u16(&content[1..]);
    Ok(Open {
        my_as,
        hold,
        id,
        params,
    })
}

/// A message from its type and its content, whose length fits the type.
pub(crate) fn read_content(
    alloc: Global,
    kind: Kind,
    content: &[u8],
) -> Result<Message, ContentFault>
    requires { LengthFits (number kind) (19 + length content.now) }
    ensures { ContentGives (number kind) content.now result }
{
    match kind {
        Kind::Open => Ok(Message::Open(read_open(alloc, content)?)),
        Kind::Update => Ok(Message::Update(Bytes::copy_of(alloc, content)?)),
        Kind::Notification => Ok(Message::Notification(Notice {
            code: content[0],
            subcode: content[1],
            info: Bytes::copy_of(alloc, &content[2..])?,
        })),
        Kind::KeepAlive => Ok(Message::KeepAlive),
    }
}
