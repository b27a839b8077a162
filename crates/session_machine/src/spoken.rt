//! The messages that are sent.

ghost use Rattle.std.specs.Prelude.{◌≡◌, ◌≤◌, [], ◌∷◌, ◌++◌, length, OnOk, IfOk};
ghost use Rattle.wire_base.specs.Numbers.{four};
ghost use Rattle.bgp_messages.specs.Messages.{Fits, spelling};
ghost use Rattle.bgp_session.specs.LocalSide.{IsLocal};
ghost use Rattle.session_machine.specs.Spoken.{short_as, routes_capability, as_capability, opening, open_message, notification};

use bgp_messages::{Capability, Message, Notice, Open, Param, encode_message};
use bgp_session::Local;
use std::alloc::Global;
use wire_base::{Bytes, List, OutOfMemory};

/// The AS that stands for one of more than 2 bytes (RFC 6793, section 9).
const AS_TRANS: u16 = 23456;

/// The capability of routes of a family (RFC 4760, section 8), and the service function family: AFI 31, SAFI 9.
const MULTIPROTOCOL: u8 = 1;

const FAMILY: [u8; 4] = [0, 31, 0, 9];

/// The capability of an AS number of 4 bytes (RFC 6793, section 3).
const FOUR_OCTET_AS: u8 = 65;

fn say(alloc: Global, out: &mut Bytes, message: &Message) -> Result<(), OutOfMemory>
    requires { Fits message.now }
    ensures { OnOk result (out.new ≡ out.old ++ spelling message.now) }
{
    let bytes = encode_message(alloc, message)?;
    out.push_all(bytes.as_slice())?;
    Ok(())
}

pub(crate) fn say_keep_alive(alloc: Global, out: &mut Bytes) -> Result<(), OutOfMemory>
    ensures { OnOk result (out.new ≡ out.old ++ spelling Message.KeepAlive) }
{
    say(alloc, out, &Message::KeepAlive)
}

/// A NOTIFICATION of an error (RFC 4271, section 4.5), with at most 2 bytes of data.
pub(crate) fn say_notification(
    alloc: Global,
    out: &mut Bytes,
    code: u8,
    subcode: u8,
    info: &[u8],
) -> Result<(), OutOfMemory>
    requires { length info.now ≤ 2 }
    ensures { OnOk result (out.new ≡ out.old ++ spelling (notification code subcode info.now)) }
{
    let info = Bytes::copy_of(alloc, info)?;
    let notice = Notice {
        code,
        subcode,
        info,
    };
    say(alloc, out, &Message::Notification(notice))
}

/// The AS for the field of 2 bytes.
fn short_as_of(asn: u32) -> u16
    ensures { result ≡ short_as asn }
{
    if asn < 65536 { asn as u16 } else { AS_TRANS }
}

fn as_bytes(alloc: Global, asn: u32) -> Result<Bytes, OutOfMemory>
    ensures { IfOk result (λ bytes. bytes ≡ four asn) }
{
    let mut bytes = Bytes::new(alloc);
    bytes.push_u32(asn)?;
    Ok(bytes)
}

fn capabilities_of(alloc: Global, asn: u32) -> Result<List<Capability>, OutOfMemory>
    ensures { IfOk result (λ caps. caps ≡ routes_capability ∷ as_capability asn ∷ []) }
{
    let mut caps = List::new(alloc);
    let body = Bytes::copy_of(alloc, &FAMILY)?;
    caps.push(Capability {
        code: MULTIPROTOCOL,
        body,
    })?;
    let body = as_bytes(alloc, asn)?;
    caps.push(Capability {
        code: FOUR_OCTET_AS,
        body,
    })?;
    Ok(caps)
}

/// The local side's OPEN (RFC 4271, section 4.2).
pub fn opening_of(alloc: Global, local: &Local) -> Result<Open, OutOfMemory>
    ensures { IfOk result (λ made. made ≡ opening local.now) }
{
    let caps = capabilities_of(alloc, local.asn)?;
    let mut params = List::new(alloc);
    params.push(Param { caps })?;
    Ok(Open {
        my_as: short_as_of(local.asn),
        hold: local.hold,
        id: local.id,
        params,
    })
}

pub(crate) fn say_open(alloc: Global, out: &mut Bytes, local: &Local) -> Result<(), OutOfMemory>
    requires { IsLocal local.now }
    ensures { OnOk result (out.new ≡ out.old ++ spelling (open_message local.now)) }
{
    let opening = opening_of(alloc, local)?;
    say(alloc, out, &Message::Open(opening))
}
