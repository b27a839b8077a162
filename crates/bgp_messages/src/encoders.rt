ghost use Rattle.std.specs.Prelude.{◌≡◌, ◌<◌, ◌++◌, length, OnOk, IfOk};
ghost use Rattle.std.specs.List.{flat_map};
ghost use Rattle.bgp_messages.specs.Opens.{capability_bytes, parameters_bytes, open_bytes, OpenFits};
ghost use Rattle.bgp_messages.specs.Messages.{content, ContentFits, Fits, IsMessage, type_of};

use crate::contents::{CAPABILITIES, VERSION};
use crate::headers::{HEADER, Kind, MARK, MARKS};
use crate::messages::Message;
use crate::opens::{Capability, Open, Param};
use std::alloc::Global;
use wire_base::{Bytes, List, OutOfMemory};

fn put_capability(out: &mut Bytes, capability: &Capability) -> Result<(), OutOfMemory>
    requires { length capability.now.body < 256 }
    ensures { OnOk result (out.new ≡ out.old ++ capability_bytes capability.now) }
{
    let body = capability.body.as_slice();
    out.push_all(&[capability.code, body.len() as u8])?;
    out.push_all(body)?;
    Ok(())
}

/// The value of a parameter.
fn value_of(alloc: Global, caps: &[Capability]) -> Result<Bytes, OutOfMemory>
    requires { length (flat_map capability_bytes caps.now) < 256 }
    ensures { IfOk result (λ value. value ≡ flat_map capability_bytes caps.now) }
{
    let mut value = Bytes::new(alloc);
    for capability in caps {
        put_capability(&mut value, capability)?;
    }
    Ok(value)
}

/// All parameters, one behind the other.
fn parameters_of(alloc: Global, params: &[Param]) -> Result<Bytes, OutOfMemory>
    requires { length (parameters_bytes params.now) < 256 }
    ensures { IfOk result (λ bytes. bytes ≡ parameters_bytes params.now) }
{
    let mut out = Bytes::new(alloc);
    for param in params {
        let value = value_of(alloc, param.caps.as_slice())?;
        let value = value.as_slice();
        out.push_all(&[CAPABILITIES, value.len() as u8])?;
        out.push_all(value)?;
    }
    Ok(out)
}

fn put_open(alloc: Global, out: &mut Bytes, opening: &Open) -> Result<(), OutOfMemory>
    requires { OpenFits opening.now }
    ensures { OnOk result (out.new ≡ out.old ++ open_bytes opening.now) }
{
    let params = parameters_of(alloc, opening.params.as_slice())?;
    let params = params.as_slice();
    out.push_all(&[VERSION])?;
    out.push_u16(opening.my_as)?;
    out.push_u16(opening.hold)?;
    out.push_u32(opening.id)?;
    out.push_all(&[params.len() as u8])?;
    out.push_all(params)?;
    Ok(())
}

/// What stands behind a message's header.
fn content_of(alloc: Global, message: &Message) -> Result<Bytes, OutOfMemory>
    requires { ContentFits message.now }
    ensures { IfOk result (λ bytes. bytes ≡ content message.now) }
{
    let mut out = Bytes::new(alloc);
    match message {
        Message::Open(open) => put_open(alloc, &mut out, open)?,
        Message::Update(body) => out.push_all(body.as_slice())?,
        Message::Notification(notice) => {
            out.push_all(&[notice.code, notice.subcode])?;
            out.push_all(notice.info.as_slice())?;
        }
        Message::KeepAlive => {}
    }
    Ok(out)
}

/// The one spelling of a message: marker, length, type, content (RFC 4271, section 4).
pub fn encode_message(alloc: Global, message: &Message) -> Result<Bytes, OutOfMemory>
    requires { Fits message.now }
    ensures { IfOk result (λ bytes. IsMessage bytes message.now) }
{
    let content = content_of(alloc, message)?;
    let content = content.as_slice();
    let length = HEADER + content.len() as u16;
    let kind = Kind::of_message(message);
    let mut out = Bytes::new(alloc);
    out.push_all(&[MARK; MARKS])?;
    out.push_u16(length)?;
    out.push_all(&[kind.number()])?;
    out.push_all(content)?;
    Ok(out)
}
