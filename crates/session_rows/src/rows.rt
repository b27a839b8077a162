//! The rows, one after the other.

ghost use Rattle.std.specs.Prelude.{◌≤◌, IfSome};
ghost use Rattle.session_machine.specs.Events.{happening};
ghost use Rattle.session_machine.specs.Courses.{Room};

use anyhow::bail;
use bgp_session::Local;
use session_machine::{Effects, Event, Session};
use sfc_routes::RouteChange;
use std::alloc::Global;
use std::str::SplitWhitespace;
use text_words::read_number;

/// The next word as a number.
fn next_number(words: &mut SplitWhitespace, least: u64, most: u64) -> Option<u64>
    ensures { IfSome result (λ n. (least ≤ n) × (n ≤ most)) }
{
    read_number(words.next()?.as_bytes(), least, most)
}

/// Prints the row, does what it says, and prints what it shows.
pub(crate) fn take_row<R: Print>(
    rt: &R,
    alloc: Global,
    session: &mut Session,
    line: &str,
) -> anyhow::Result<()> {
    println!(rt; "{line}")?;
    if line.starts_with('#') {
        return Ok(());
    }
    let mut words = line.split_whitespace();
    let told = match words.next().unwrap_or("") {
        "session" => begin(alloc, session, words),
        "connect" => connect(rt, alloc, session, words)?,
        "bytes" => bytes(rt, alloc, session, words)?,
        "close" => close(rt, alloc, session, words)?,
        _ => false,
    };
    if !told {
        println!(rt; "  ?")?;
    }
    Ok(())
}

fn begin(alloc: Global, session: &mut Session, mut words: SplitWhitespace) -> bool {
    let Some(hold) = next_number(&mut words, 0, 65_535) else {
        return false;
    };
    let Some(asn) = next_number(&mut words, 1, 4_294_967_295) else {
        return false;
    };
    let Some(local) = Local::of(65000, 0xC000_0201, hold as u16) else {
        return false;
    };
    *session = Session::new(alloc, local, 1, asn as u32);
    true
}

fn connect<R: Print>(
    rt: &R,
    alloc: Global,
    session: &mut Session,
    mut words: SplitWhitespace,
) -> anyhow::Result<bool> {
    let Some(moment) = next_number(&mut words, 0, u64::MAX) else {
        return Ok(false);
    };
    take_event(rt, alloc, session, Event::Connect(moment))?;
    Ok(true)
}

fn bytes<R: Print>(
    rt: &R,
    alloc: Global,
    session: &mut Session,
    mut words: SplitWhitespace,
) -> anyhow::Result<bool> {
    let Some(moment) = next_number(&mut words, 0, u64::MAX) else {
        return Ok(false);
    };
    let piece = match words.next().unwrap_or("-") {
        "-" => Vec::new(alloc),
        digits => hex::decode(alloc, digits)?,
    };
    if !session.has_room(piece.len()) {
        return Ok(false);
    }
    take_event(rt, alloc, session, Event::Bytes(moment, &piece))?;
    Ok(true)
}

fn close<R: Print>(
    rt: &R,
    alloc: Global,
    session: &mut Session,
    mut words: SplitWhitespace,
) -> anyhow::Result<bool> {
    let Some(moment) = next_number(&mut words, 0, u64::MAX) else {
        return Ok(false);
    };
    take_event(rt, alloc, session, Event::Close(moment))?;
    Ok(true)
}

fn take_event<R: Print>(
    rt: &R,
    alloc: Global,
    session: &mut Session,
    event: Event<'_>,
) -> anyhow::Result<()>
    requires { Room session.old.course (happening event) }
{
    match session.step(event) {
        Ok(effects) => show(rt, alloc, &effects),
        Err(_) => bail!("no memory for an event"),
    }
}

fn show<R: Print>(rt: &R, alloc: Global, effects: &Effects) -> anyhow::Result<()> {
    let sent = effects.bytes.as_slice();
    if !sent.is_empty() {
        println!(rt; "  sent {}", hex::encode(alloc, sent)?)?;
    }
    for change in effects.changes.as_slice() {
        show_change(rt, change)?;
    }
    Ok(())
}

fn show_change<R: Print>(rt: &R, change: &RouteChange) -> anyhow::Result<()> {
    let withdrawn = change.withdrawn.as_slice().len();
    let announced = change.announced.as_slice().len();
    println!(rt;
        "  peer {} all {} withdrawn {withdrawn} announced {announced}",
        change.peer, change.all
    )?;
    Ok(())
}
