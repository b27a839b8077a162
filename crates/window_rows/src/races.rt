//! Two seats that look up while lists are published, each in a thread of its own.

ghost use Rattle.std.specs.Prelude.{◌≡◌};

use crate::faults::Fault;
use crate::gates::{Gate, TURNS};
use crate::looks::look_once;
use crate::paths::answer_of;
use crate::turns::{Lists, publish_next};
use std::alloc::Global;
use std::sync::Wait;
use std::thread;
use std::thread::{Threads, join_mut};
use table_publish::{Publisher, Seat};
use wire_base::Spi;

/// The version that a lookup names. It is none older than the one seen, and the answer is that of its table.
fn version_seen(seat: &mut Seat, spi: Spi, seen: u64) -> Result<u64, Fault>
    ensures { seat.new.window ≡ seat.old.window }
{
    let found = look_once(seat, spi, 255)?;
    if found.version < seen {
        return Err(Fault::OlderVersion);
    }
    if found.answer != answer_of(found.version) {
        return Err(Fault::OtherAnswer);
    }
    Ok(found.version)
}

/// Looks up again and again until the last version is found, and says which it is.
fn watch(gate: &Gate, seat: &mut Seat, lists: Lists) -> Result<u64, Fault>
    ensures { seat.new.window ≡ seat.old.window }
{
    let last = lists.from.saturating_add(lists.count);
    let mut seen = version_seen(seat, lists.spi, lists.from)?;
    gate.note_look();
    for _ in 0..TURNS {
        if seen >= last {
            return Ok(seen);
        }
        thread::yield_now();
        seen = version_seen(seat, lists.spi, seen)?;
    }
    Err(Fault::OutOfTurns)
}

/// Publishes all lists once both seats have looked up.
fn publish_all<R: Wait>(
    rt: &R,
    alloc: Global,
    gate: &Gate,
    publisher: &mut Publisher,
    lists: Lists,
) -> Result<(), Fault>
    ensures { publisher.new.window ≡ publisher.old.window }
{
    gate.wait_for_looks(2)?;
    for turn in 1..=lists.count {
        publish_next(
            rt,
            alloc,
            publisher,
            lists.spi,
            lists.from.saturating_add(turn),
        )?;
    }
    Ok(())
}

fn watch_both<R: Threads + Sync>(
    rt: &R,
    gate: &Gate,
    first: &mut Seat,
    second: &mut Seat,
    lists: Lists,
) -> Result<(u64, u64), Fault>
    ensures first { first.new.window ≡ first.old.window }
    ensures second { second.new.window ≡ second.old.window }
{
    let (one, other) = join_mut(
        rt,
        &mut || -> Result<u64, Fault>
            ensures { first.exit.now.window ≡ first.entry.now.window }
        { watch(gate, first, lists) },
        &mut || -> Result<u64, Fault>
            ensures { second.exit.now.window ≡ second.entry.now.window }
        { watch(gate, second, lists) },
    );
    Ok((one?, other?))
}

/// The versions that both seats found at last, each in a thread beside the publisher's.
pub(crate) fn race<R: Threads + Wait + Sync>(
    rt: &R,
    alloc: Global,
    publisher: &mut Publisher,
    first: &mut Seat,
    second: &mut Seat,
    lists: Lists,
) -> Result<(u64, u64), Fault>
    ensures publisher { publisher.new.window ≡ publisher.old.window }
    ensures first { first.new.window ≡ first.old.window }
    ensures second { second.new.window ≡ second.old.window }
{
    let gate = Gate::new();
    let (found, published) = join_mut(
        rt,
        &mut || -> Result<(u64, u64), Fault>
            ensures { (first.exit.now.window ≡ first.entry.now.window) × (second.exit.now.window ≡ second.entry.now.window) }
        { watch_both(rt, &gate, first, second, lists) },
        &mut || -> Result<(), Fault>
            ensures { publisher.exit.now.window ≡ publisher.entry.now.window }
        { publish_all(rt, alloc, &gate, publisher, lists) },
    );
    published?;
    found
}
