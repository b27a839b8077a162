//! The lines that show a stream of BGP messages.

ghost use Rattle.std.specs.Prelude.{◌≡◌, ℕ, List, ◌≤◌, ◌<◌, ◌+◌, ◌^◌, ◌++◌, length, codes, None, OnOk, IfOk};
ghost use Rattle.std.specs.List.{flat_map, AllByRecursion};
ghost use Rattle.bgp_messages.specs.Opens.{capabilities_of};
ghost use Rattle.bgp_messages.specs.Messages.{content};
ghost use Rattle.bgp_update.specs.declared.attributes.Attribute.{Attribute};
ghost use Rattle.bgp_update.specs.Attributes.{attributes_bytes, AttributeFits};
ghost use Rattle.bgp_update.specs.Checks.{HasUpdate};
ghost use Rattle.text_words.specs.Hexadecimal.{hexadecimal, octets_or_dash};
ghost use Rattle.sfc_texts.specs.NshText.{field, line_end, octets_field};
ghost use Rattle.sfc_texts.specs.BgpText.{capability_text, further_capability, capabilities_text, identifier_text, open_line, keep_alive_line, notification_line, value_line, attribute_line, refused_line, rest_line};
ghost use Rattle.sfc_texts.specs.BgpSteps.{AppendsUpdate, UpdateShown, MessageShown, NextShown};

use crate::attribute_names::AttributeNames;
use crate::nsh_text::{print_field, print_octets_field};
use bgp_messages::{BgpFeed, Capability, Message, NextFault, Notice, Open, Param};
use bgp_update::{
    AttributePiece, MALFORMED_ATTRIBUTE_LIST, UPDATE_MESSAGE_ERROR, attribute_at, attributes_in,
};
use std::alloc::Global;
use text_words::{print_dotted, print_octets};
use wire_base::{Bytes, Fixed, OutOfMemory};

/// How many bytes the header of a message has.
const HEADER: u64 = 19;

/// Appends a comma and a capability.
fn print_further(out: &mut Bytes, capability: &Capability) -> Result<(), OutOfMemory>
    ensures { OnOk result (out.new ≡ out.old ++ further_capability capability.now) }
{
    print_field(out, b",", u64::from(capability.code))?;
    print_octets_field(out, b":", capability.body.as_slice())
}

/// Appends capabilities, each with a comma before it.
fn print_all_further(out: &mut Bytes, caps: &[Capability]) -> Result<(), OutOfMemory>
    ensures { OnOk result (out.new ≡ out.old ++ flat_map further_capability caps.now) }
{
    for capability in caps {
        print_further(out, capability)?;
    }
    Ok(())
}

/// The capabilities of all parameters, each with a comma before it.
fn further_capabilities(alloc: Global, params: &[Param]) -> Result<Bytes, OutOfMemory>
    ensures { IfOk result (λ text. text ≡ flat_map further_capability (capabilities_of params.now)) }
{
    let mut text = Bytes::new(alloc);
    for param in params {
        print_all_further(&mut text, param.caps.as_slice())?;
    }
    Ok(text)
}

/// Appends the capabilities of all parameters, joined by commas.
fn print_capabilities(alloc: Global, out: &mut Bytes, params: &[Param]) -> Result<(), OutOfMemory>
    ensures { OnOk result (out.new ≡ out.old ++ capabilities_text (capabilities_of params.now)) }
{
    let text = further_capabilities(alloc, params)?;
    let text = text.as_slice();
    if text.is_empty() {
        return out.push_all(b"-");
    }
    out.push_all(&text[1..])
}

/// Appends an identifier as four numbers.
fn print_identifier(out: &mut Bytes, id: u32) -> Result<(), OutOfMemory>
    ensures { OnOk result (out.new ≡ out.old ++ identifier_text id) }
{
    let (high, low) = (id / 65536, id % 65536);
    let octets = [
        (high / 256) as u8,
        (high % 256) as u8,
        (low / 256) as u8,
        (low % 256) as u8,
    ];
    out.push_all(b" id=")?;
    print_dotted(out, &Fixed::of(&octets).unwrap())
}

/// Appends the line of an OPEN.
fn print_open(alloc: Global, out: &mut Bytes, opening: &Open) -> Result<(), OutOfMemory>
    ensures { OnOk result (out.new ≡ out.old ++ open_line opening.now) }
{
    print_field(out, b"open as=", u64::from(opening.peer_as()))?;
    print_field(out, b" hold=", u64::from(opening.hold))?;
    print_identifier(out, opening.id)?;
    out.push_all(b" capabilities=")?;
    print_capabilities(alloc, out, opening.params.as_slice())?;
    out.push_all(b"\n")
}

/// Appends the line of a NOTIFICATION.
fn print_notification(out: &mut Bytes, notice: &Notice) -> Result<(), OutOfMemory>
    ensures { OnOk result (out.new ≡ out.old ++ notification_line notice.now) }
{
    print_field(out, b"notification ", u64::from(notice.code))?;
    print_field(out, b" ", u64::from(notice.subcode))?;
    print_octets_field(out, b" ", notice.info.as_slice())?;
    out.push_all(b"\n")
}

/// Appends the line of an attribute.
fn print_attribute(
    names: &AttributeNames,
    out: &mut Bytes,
    piece: &AttributePiece<'_>,
) -> Result<(), OutOfMemory>
    ensures { OnOk result (out.new ≡ out.old ++ value_line piece.now.flags piece.now.kind piece.now.value.now) }
{
    out.push_all(b"attribute ")?;
    print_octets(out, &[piece.flags])?;
    out.push_all(b" ")?;
    names.print(out, piece.kind)?;
    print_octets_field(out, b" ", piece.value)?;
    out.push_all(b"\n")
}

/// Appends the lines of the attributes that fill the bytes.
fn print_attributes(
    names: &AttributeNames,
    out: &mut Bytes,
    bytes: &[u8],
) -> Result<(), OutOfMemory>
    ensures { (list : List Attribute) → AllByRecursion AttributeFits list → bytes.now ≡ attributes_bytes list
        → OnOk result (out.new ≡ out.old ++ flat_map attribute_line list) }
{
    let mut rest = bytes;
    while let Some(piece) = attribute_at(rest) {
        print_attribute(names, out, &piece)?;
        rest = piece.rest;
    }
    Ok(())
}

/// Appends the lines of the update whose attributes fill the bytes.
fn print_update(
    names: &AttributeNames,
    out: &mut Bytes,
    attributes: &[u8],
) -> Result<(), OutOfMemory>
    ensures { (content : List ℕ) → HasUpdate content attributes.now → OnOk result (AppendsUpdate content out.old out.new) }
{
    out.push_all(b"update\n")?;
    print_attributes(names, out, attributes)
}

/// Appends the line of a refusal.
fn print_refused(out: &mut Bytes, code: u8, subcode: u8, place: u64) -> Result<(), OutOfMemory>
    ensures { OnOk result (out.new ≡ out.old ++ refused_line code subcode place) }
{
    print_field(out, b"refused ", u64::from(code))?;
    print_field(out, b" ", u64::from(subcode))?;
    print_field(out, b" ", place)?;
    out.push_all(b"\n")
}

/// Appends the line of bytes that are no whole message, where there are some.
pub(crate) fn print_rest(out: &mut Bytes, count: usize) -> Result<(), OutOfMemory>
    ensures { OnOk result (out.new ≡ out.old ++ rest_line count) }
{
    if count == 0 {
        return Ok(());
    }
    print_field(out, b"rest ", count as u64)?;
    out.push_all(b"\n")
}

/// What a stream shows next.
#[derive(Clone, Copy, Debug, PartialEq, Eq)]
pub(crate) enum Step {
    /// The lines of a message.
    Message,
    /// Nothing yet: no whole message is there, and nothing that is refused.
    Waits,
    /// The line of a refusal, behind which nothing is shown.
    Over,
}

/// Appends the lines of an UPDATE, whose message begins at the place, or of its refusal. Nothing of it is copied.
fn show_update(
    names: &AttributeNames,
    out: &mut Bytes,
    place: u64,
    content: &[u8],
) -> Result<Step, OutOfMemory>
    requires { place + 19 + length content.now < 2 ^ 64 }
    ensures { UpdateShown place content.now out.old out.new result }
{
    match attributes_in(content) {
        Ok(attributes) => {
            print_update(names, out, attributes)?;
            Ok(Step::Message)
        }
        Err(inside) => {
            let told = place + HEADER + inside;
            print_refused(out, UPDATE_MESSAGE_ERROR, MALFORMED_ATTRIBUTE_LIST, told)?;
            Ok(Step::Over)
        }
    }
}

/// Appends the lines of a message that begins at the place, or of its refusal.
fn show_message(
    alloc: Global,
    names: &AttributeNames,
    out: &mut Bytes,
    place: u64,
    message: &Message,
) -> Result<Step, OutOfMemory>
    requires { place + 19 + length (content message.now) < 2 ^ 64 }
    ensures { MessageShown place message.now out.old out.new result }
{
    match message {
        Message::Open(opening) => print_open(alloc, out, opening)?,
        Message::Update(body) => return show_update(names, out, place, body.as_slice()),
        Message::Notification(notice) => print_notification(out, notice)?,
        Message::KeepAlive => out.push_all(b"keepalive\n")?,
    }
    Ok(Step::Message)
}

/// Appends what the feed's next answer shows.
pub(crate) fn show_next(
    alloc: Global,
    names: &AttributeNames,
    feed: &mut BgpFeed,
    out: &mut Bytes,
) -> Result<Step, OutOfMemory>
    requires { feed.old.stop ≡ None }
    ensures shown { NextShown feed.old feed.new out.old out.new result }
    ensures count { feed.new.place + length feed.new.rest ≡ feed.old.place + length feed.old.rest }
{
    let place = feed.place();
    match feed.next() {
        Ok(Some(message)) => show_message(alloc, names, out, place, &message),
        Ok(None) => Ok(Step::Waits),
        Err(NextFault::Bad(refusal)) => {
            print_refused(out, refusal.code, refusal.subcode, refusal.place)?;
            Ok(Step::Over)
        }
        Err(NextFault::OutOfMemory) => Err(OutOfMemory),
    }
}
