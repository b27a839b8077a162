//! The roster of the rows.

use sfc_routes::Roster;
use text_words::Name;
use wire_base::{Fixed, NextHop, OutOfMemory};

/// Adds a forwarder, at an address of its own; false where its name may not be added.
fn add_forwarder(roster: &mut Roster, name: &Name) -> Result<bool, OutOfMemory> {
    let count = roster.forwarders();
    if 64 <= count {
        return Ok(false);
    }
    let Some(octets) = Fixed::of(&[10, 0, 0, count as u8]) else {
        return Ok(false);
    };
    let address = NextHop::Four(octets);
    let None = roster.forwarder_at(&address) else {
        return Ok(false);
    };
    let None = roster.forwarder_named(name.as_str()) else {
        return Ok(false);
    };
    roster.add_forwarder(name.as_str(), address)?;
    Ok(true)
}

/// Adds an instance, with an RD of its own; false where its name may not be added.
fn add_instance(roster: &mut Roster, name: &Name) -> Result<bool, OutOfMemory> {
    let count = roster.instances();
    if 256 <= count {
        return Ok(false);
    }
    let Some(rd) = Fixed::of(&[0, 0, 0xfd, 0xe8, 0, 0, 0, count as u8]) else {
        return Ok(false);
    };
    let None = roster.instance_at(&rd, 41) else {
        return Ok(false);
    };
    let None = roster.instance_named(name.as_str()) else {
        return Ok(false);
    };
    roster.add_instance(name.as_str(), rd, 41)?;
    Ok(true)
}

/// Adds what a row `forwarder` or `instance` names; false where it may not be added.
pub(crate) fn add_named(
    roster: &mut Roster,
    is_forwarder: bool,
    word: &str,
) -> Result<bool, OutOfMemory> {
    let Some(name) = Name::of(word.as_bytes()) else {
        return Ok(false);
    };
    if is_forwarder {
        add_forwarder(roster, &name)
    } else {
        add_instance(roster, &name)
    }
}
