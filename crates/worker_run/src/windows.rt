//! The parts of a round, filled side by side while its versions are published.

ghost use Rattle.std.specs.Prelude.{◌≡◌, ◌≤◌, length, All, OnOk, None};
ghost use Rattle.std.specs.List.{AllByRecursion, AllZip};
ghost use Rattle.table_publish.specs.Publications.{Extends, Publications as Published};
ghost use Rattle.table_publish.specs.Views.{fresh_seat};
ghost use Rattle.worker_run.specs.Batches.{AreWithinLimits};
ghost use Rattle.worker_run.specs.Shares.{Filled, IsOfWindow, IsReady, SameShape, Seated, SeesFront, Unseated, Worked, longer_by, published_on};

use crate::parts::Part;
use forwarder::Gate;
use path_selection::{Change, Table};
use sfc_config::Setup;
use std::alloc::Global;
use std::collections::VecDeque;
use std::sync::Wait;
use std::thread;
use std::thread::{Threads, join_mut};
use table_publish::{Publisher, Seat, Window, close};
use wire_base::{List, OutOfMemory};

/// Fills the parts, each in a thread of its own where one can be made.
pub(crate) fn fill_parts<R: Threads + Sync, G: Gate>(
    rt: &R,
    setup: &Setup,
    table: &Table,
    version: u64,
    gate: &G,
    parts: &mut [Part],
)
    requires { All IsReady parts.old }
    ensures { AllZip (Filled setup.now table.now version) parts.old parts.new }
{
    let count = parts.len().max(1);
    thread::for_each_mut(
        rt,
        parts,
        count,
        &|_, part: &mut Part|
            requires { IsReady part.old }
            ensures { Filled setup.entry.now table.entry.now version part.old part.new }
        { part.fill(setup, table, version, gate) },
    );
}

/// Publishes lists of changes, the first first. The gate is told of each version.
fn publish_all<R: Wait, G: Gate>(
    rt: &R,
    gate: &G,
    publisher: &mut Publisher,
    lists: &mut VecDeque<List<Change>>,
) -> Result<(), OutOfMemory>
    ensures window { publisher.new.window ≡ publisher.old.window }
    ensures published { OnOk result (publisher.new.published ≡ longer_by publisher.old.published lists.old.items) }
{
    while let Some(changes) = lists.pop_front() {
        let told = publisher.publish(rt, changes)?;
        gate.after_publish(told.version());
    }
    Ok(())
}

/// Fills the parts in threads while this thread publishes.
fn fill_beside<R: Threads + Wait + Sync, G: Gate>(
    rt: &R,
    setup: &Setup,
    table: &Table,
    version: u64,
    gate: &G,
    parts: &mut [Part],
    publisher: &mut Publisher,
    lists: &mut VecDeque<List<Change>>,
) -> Result<(), OutOfMemory>
    requires { All IsReady parts.old }
    ensures parts { AllZip (Filled setup.now table.now version) parts.old parts.new }
    ensures window { publisher.new.window ≡ publisher.old.window }
    ensures published { OnOk result (publisher.new.published ≡ longer_by publisher.old.published lists.old.items) }
{
    let mut fill = ||
        requires { All IsReady parts.now }
        ensures { AllZip (Filled setup.entry.now table.entry.now version) parts.entry.now parts.exit.now }
    { fill_parts(rt, setup, table, version, gate, parts) };
    let mut publish = || -> Result<(), OutOfMemory>
        ensures { (publisher.exit.now.window ≡ publisher.entry.now.window) × OnOk result (publisher.exit.now.published ≡ longer_by publisher.entry.now.published lists.entry.now.items) }
    { publish_all(rt, gate, publisher, lists) };
    let ((), published) = join_mut(rt, &mut fill, &mut publish);
    published
}

/// Gives each part a seat, as far as there are so many.
fn seat_parts(publisher: &Publisher, seats: &mut List<Seat>, parts: &mut [Part])
    requires { All (λ seat. seat ≡ fresh_seat publisher.now.window publisher.now.published) seats.old }
    ensures left { All (λ seat. seat ≡ fresh_seat publisher.now.window publisher.now.published) seats.new }
    ensures parts { AllZip (Seated publisher.now.window publisher.now.published) parts.old parts.new }
{
    let Some((part, rest)) = parts.split_first_mut() else {
        return;
    };
    part.seat = seats.pop();
    seat_parts(publisher, seats, rest);
}

/// Takes a seat into a list, where there is one.
fn keep_seat(
    publisher: &Publisher,
    seat: Option<Seat>,
    seats: &mut List<Seat>,
) -> Result<(), OutOfMemory>
    requires seat { IsOfWindow publisher.now.window seat }
    requires seats { All (λ s. s.window ≡ publisher.now.window) seats.old }
    ensures seats { All (λ s. s.window ≡ publisher.now.window) seats.new }
    ensures kept { (published : Published) → OnOk result (All (λ s. Extends published s.seen) seats.new → SeesFront published seat × All (λ s. Extends published s.seen) seats.old) }
{
    match seat {
        Some(seat) => seats.push(seat),
        None => Ok(()),
    }
}

/// Takes the seat of a part.
fn unseat(publisher: &Publisher, part: &mut Part, seats: &mut List<Seat>) -> Result<(), OutOfMemory>
    requires part { IsOfWindow publisher.now.window part.old.seat }
    requires seats { All (λ s. s.window ≡ publisher.now.window) seats.old }
    ensures seats { All (λ s. s.window ≡ publisher.now.window) seats.new }
    ensures part { Unseated part.old part.new }
    ensures kept { (published : Published) → OnOk result (All (λ s. Extends published s.seen) seats.new → SeesFront published part.old.seat × All (λ s. Extends published s.seen) seats.old) }
{
    let seat = part.seat.take();
    keep_seat(publisher, seat, seats)
}

/// Takes the seats of the parts. One for which there is no memory is dropped.
fn unseat_parts(
    publisher: &Publisher,
    parts: &mut [Part],
    seats: &mut List<Seat>,
) -> Result<(), OutOfMemory>
    requires parts { AllByRecursion (λ p. IsOfWindow publisher.now.window p.seat) parts.old }
    requires seats { All (λ s. s.window ≡ publisher.now.window) seats.old }
    ensures seats { All (λ s. s.window ≡ publisher.now.window) seats.new }
    ensures parts { AllZip Unseated parts.old parts.new }
    ensures kept { (published : Published) → OnOk result (All (λ s. Extends published s.seen) seats.new
        → AllByRecursion (λ p. SeesFront published p.seat) parts.old × All (λ s. Extends published s.seen) seats.old) }
{
    let Some((part, rest)) = parts.split_first_mut() else {
        return Ok(());
    };
    unseat(publisher, part, seats)?;
    unseat_parts(publisher, rest, seats)
}

/// Closes the window, with the seats that are left and those of the parts.
fn close_window<R: Wait>(
    rt: &R,
    publisher: Publisher,
    mut seats: List<Seat>,
    parts: &mut [Part],
) -> Result<(), OutOfMemory>
    requires parts { AllByRecursion (λ p. IsOfWindow publisher.window p.seat) parts.old }
    requires seats { All (λ s. s.window ≡ publisher.window) seats }
    ensures parts { AllZip Unseated parts.old parts.new }
    ensures fronts { OnOk result (AllByRecursion (λ p. SeesFront publisher.published p.seat) parts.old) }
{
    let kept = unseat_parts(&publisher, parts, &mut seats);
    let closed = close(rt, publisher, seats);
    kept?;
    closed?;
    Ok(())
}

/// Fills the parts from the seats of a window on a table, beside publications in it.
pub(crate) fn fill_in_window<R: Threads + Wait + Sync, G: Gate>(
    rt: &R,
    alloc: Global,
    setup: &Setup,
    table: &Table,
    version: u64,
    gate: &G,
    parts: &mut [Part],
    lists: &mut VecDeque<List<Change>>,
) -> Result<(), OutOfMemory>
    requires workers { (1 ≤ length parts.old) × (length parts.old ≤ 16) }
    requires limits { AllByRecursion (λ p. AreWithinLimits p.slots.items) parts.old }
    ensures shape { AllZip SameShape parts.old parts.new }
    ensures worked { OnOk result (AllZip (Worked setup.now (published_on table.now version lists.old.items)) parts.old parts.new) }
{
    let (mut publisher, mut seats) = Window::begin(rt, alloc, table, version, parts.len())?;
    seat_parts(&publisher, &mut seats, parts);
    let published = fill_beside(
        rt,
        setup,
        table,
        version,
        gate,
        parts,
        &mut publisher,
        lists,
    );
    let closed = close_window(rt, publisher, seats, parts);
    published?;
    closed
}
