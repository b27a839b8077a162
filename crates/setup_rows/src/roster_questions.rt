//! Questions to a roster.

use crate::read_words::{push_none, push_text};
use sfc_routes::Roster;
use std::alloc::Global;
use text_words::{Name, Pieces, print_address, print_octets, read_octets};
use wire_base::{Bytes, Fixed, ForwarderId, InstanceId, List, OutOfMemory};

/// Appends the forwarder with a number, as its number, name and address.
fn push_forwarder(
    alloc: Global,
    out: &mut Bytes,
    roster: &Roster,
    found: Option<ForwarderId>,
) -> Result<(), OutOfMemory> {
    let Some(id) = found else {
        return push_none(out);
    };
    if roster.forwarders() <= usize::from(id.0) {
        return push_none(out);
    }
    let text = format!(in alloc; "  {} {} ", id.0, roster.forwarder_name(id))?;
    push_text(out, text.as_str())?;
    print_address(out, roster.address_of(id))?;
    out.push_all(b"\n")
}

/// Appends the instance with a number, as its number, name, type and RD.
fn push_instance(
    alloc: Global,
    out: &mut Bytes,
    roster: &Roster,
    found: Option<InstanceId>,
) -> Result<(), OutOfMemory> {
    let Some(id) = found else {
        return push_none(out);
    };
    if roster.instances() <= usize::from(id.0) {
        return push_none(out);
    }
    let text = format!(in alloc;
        "  {} {} {} ",
        id.0,
        roster.instance_name(id),
        roster.kind_of(id)
    )?;
    push_text(out, text.as_str())?;
    print_octets(out, roster.rd_of(id).bytes())?;
    out.push_all(b"\n")
}

/// Appends an answer of yes or no.
fn push_yes_or_no(out: &mut Bytes, yes: bool) -> Result<(), OutOfMemory> {
    out.push_all(if yes { b"  yes\n" } else { b"  no\n" })
}

/// The targets of some words. A word that is none is left out.
fn targets_of(alloc: Global, words: &[u8]) -> Result<List<Fixed<8>>, OutOfMemory> {
    let mut targets = List::new(alloc);
    for word in words.split(|byte| *byte == b' ') {
        if let Some(target) = read_octets::<8>(word) {
            targets.push(target)?;
        }
    }
    Ok(targets)
}

fn forwarder_answer(
    alloc: Global,
    out: &mut Bytes,
    roster: &Roster,
    words: &mut Pieces,
) -> Result<(), OutOfMemory> {
    let found = match words.next_name() {
        Some(name) => roster.forwarder_named(name.as_str()),
        None => None,
    };
    push_forwarder(alloc, out, roster, found)
}

fn address_answer(
    alloc: Global,
    out: &mut Bytes,
    roster: &Roster,
    words: &mut Pieces,
) -> Result<(), OutOfMemory> {
    let found = match words.next_address() {
        Some(address) => roster.forwarder_at(&address),
        None => None,
    };
    push_forwarder(alloc, out, roster, found)
}

fn instance_answer(
    alloc: Global,
    out: &mut Bytes,
    roster: &Roster,
    words: &mut Pieces,
) -> Result<(), OutOfMemory> {
    let found = match words.next_name() {
        Some(name) => roster.instance_named(name.as_str()),
        None => None,
    };
    push_instance(alloc, out, roster, found)
}

/// The instance of an RD and a type.
fn service_of(roster: &Roster, words: &mut Pieces) -> Option<InstanceId> {
    let rd = words.next_octets::<8>()?;
    let kind = words.next_number(0, 65_535)?;
    roster.instance_at(&rd, kind as u16)
}

fn target_answer(out: &mut Bytes, roster: &Roster, words: &mut Pieces) -> Result<(), OutOfMemory> {
    match words.next_octets::<8>() {
        Some(target) => push_yes_or_no(out, roster.has_target(&target)),
        None => push_none(out),
    }
}

/// What a roster answers to a question, a word and what is asked for.
pub(crate) fn ask_row(
    alloc: Global,
    out: &mut Bytes,
    roster: &Roster,
    question: &str,
) -> Result<(), OutOfMemory> {
    let (kind, asked) = match question.split_once(' ') {
        Some(parts) => parts,
        None => (question, ""),
    };
    let mut words = Pieces::of(asked.as_bytes(), b' ');
    match kind {
        "forwarder" => forwarder_answer(alloc, out, roster, &mut words),
        "at" => address_answer(alloc, out, roster, &mut words),
        "instance" => instance_answer(alloc, out, roster, &mut words),
        "service" => push_instance(alloc, out, roster, service_of(roster, &mut words)),
        "target" => target_answer(out, roster, &mut words),
        "accepts" => {
            let targets = targets_of(alloc, asked.as_bytes())?;
            push_yes_or_no(out, roster.accepts(&targets))
        }
        _ => push_none(out),
    }
}
