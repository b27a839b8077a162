//! Lookups in one thread and publications in another, in turn.

ghost use Rattle.std.specs.Prelude.{◌≡◌};

use crate::faults::Fault;
use crate::gates::Gate;
use crate::looks::look_once;
use crate::paths::list_of;
use path_selection::Found;
use std::alloc::Global;
use std::sync::Wait;
use std::thread::{Threads, join_mut};
use table_publish::{Publisher, Seat};
use wire_base::{List, Spi};

/// Publishes a list that makes this version.
pub(crate) fn publish_next<R: Wait>(
    rt: &R,
    alloc: Global,
    publisher: &mut Publisher,
    spi: Spi,
    version: u64,
) -> Result<(), Fault>
    ensures { publisher.new.window ≡ publisher.old.window }
{
    let changes = list_of(alloc, spi, version)?;
    let told = publisher.publish(rt, changes)?;
    if told.version() == version {
        Ok(())
    } else {
        Err(Fault::OtherVersion)
    }
}

/// The lists of a row: on which path, from which version to which.
#[derive(Clone, Copy)]
pub(crate) struct Lists {
    pub spi: Spi,
    pub from: u64,
    pub count: u64,
}

/// Looks up before the first publication, and after each.
fn look_in_turn(
    alloc: Global,
    gate: &Gate,
    seat: &mut Seat,
    lists: Lists,
) -> Result<List<Found>, Fault>
    ensures { seat.new.window ≡ seat.old.window }
{
    let mut found = List::new(alloc);
    for turn in 0..=lists.count {
        gate.wait_for_publications(turn)?;
        found.push(look_once(seat, lists.spi, 255)?)?;
        gate.note_look();
    }
    Ok(found)
}

/// Publishes after each lookup.
fn publish_in_turn<R: Wait>(
    rt: &R,
    alloc: Global,
    gate: &Gate,
    publisher: &mut Publisher,
    lists: Lists,
) -> Result<(), Fault>
    ensures { publisher.new.window ≡ publisher.old.window }
{
    for turn in 1..=lists.count {
        gate.wait_for_looks(turn)?;
        publish_next(
            rt,
            alloc,
            publisher,
            lists.spi,
            lists.from.saturating_add(turn),
        )?;
        gate.note_publication();
    }
    Ok(())
}

/// What the seat finds before the first publication and after each, in a thread beside the publisher's.
pub(crate) fn take_turns<R: Threads + Wait + Sync>(
    rt: &R,
    alloc: Global,
    gate: &Gate,
    publisher: &mut Publisher,
    seat: &mut Seat,
    lists: Lists,
) -> Result<List<Found>, Fault>
    ensures publisher { publisher.new.window ≡ publisher.old.window }
    ensures seat { seat.new.window ≡ seat.old.window }
{
    let (found, published) = join_mut(
        rt,
        &mut || -> Result<List<Found>, Fault>
            ensures { seat.exit.now.window ≡ seat.entry.now.window }
        { look_in_turn(alloc, gate, seat, lists) },
        &mut || -> Result<(), Fault>
            ensures { publisher.exit.now.window ≡ publisher.entry.now.window }
        { publish_in_turn(rt, alloc, gate, publisher, lists) },
    );
    published?;
    found
}
