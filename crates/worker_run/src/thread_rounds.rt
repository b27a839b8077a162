//! A round on threads.

ghost use Rattle.std.specs.Prelude.{◌≡◌, ◌+◌, ◌≤◌, ℕ, List as Sequence, length, take, None, IfOk, OnOk};
ghost use Rattle.std.specs.List.{AllByRecursion, AllZip};
ghost use Rattle.control_files.specs.declared.segments.Segment.{Segment as Given};
ghost use Rattle.session_machine.specs.Groups.{Entry};
ghost use Rattle.session_machine.specs.Peers.{AllHold};
ghost use Rattle.table_publish.specs.Publications.{Publications as Published, table_of, version_of};
ghost use Rattle.worker_run.specs.declared.parts.Part.{Part as GivenPart};
ghost use Rattle.worker_run.specs.Batches.{AreWithinLimits};
ghost use Rattle.worker_run.specs.Controls.{Publishes, PublishesSome, Ready, bytes_in};
ghost use Rattle.worker_run.specs.Publications.{latest};
ghost use Rattle.worker_run.specs.Shares.{AreShared, CanFinish, Forwarded, SameShape, Worked, published_on};
ghost use Rattle.worker_run.specs.Steps.{RanOnThreads};

use crate::batches::{Batch, Slot};
use crate::controls::Control;
use crate::deals::{exchange, make_parts};
use crate::parts::Part;
use crate::versions::{Versions, last_of};
use crate::windows::{fill_in_window, fill_parts};
use control_files::Segment;
use forwarder::Gate;
use path_selection::{Change, Table};
use sfc_config::Setup;
use std::alloc::Global;
use std::collections::VecDeque;
use std::sync::Wait;
use std::thread::Threads;
use wire_base::{Bytes, List, OutOfMemory};

/// Fills the parts, in a window where there is something to publish.
fn work_parts<R: Threads + Wait + Sync, G: Gate>(
    rt: &R,
    alloc: Global,
    setup: &Setup,
    table: &Table,
    version: u64,
    gate: &G,
    parts: &mut [Part],
    lists: &mut VecDeque<List<Change>>,
) -> Result<(), OutOfMemory>
    requires workers { (1 ≤ length parts.old) × (length parts.old ≤ 16) }
    requires limits { AllByRecursion (λ p. AreWithinLimits p.slots.items) parts.old }
    requires seats { AllByRecursion (λ p. p.seat ≡ None) parts.old }
    ensures shape { AllZip SameShape parts.old parts.new }
    ensures worked { OnOk result (AllZip (Worked setup.now (published_on table.now version lists.old.items)) parts.old parts.new) }
{
    if lists.is_empty() {
        fill_parts(rt, setup, table, version, gate, parts);
        return Ok(());
    }
    fill_in_window(rt, alloc, setup, table, version, gate, parts, lists)
}

/// Finishes each part over the last table.
fn finish_parts<G: Gate>(
    setup: &Setup,
    table: &Table,
    version: u64,
    gate: &G,
    parts: &mut [Part],
) -> Result<(), OutOfMemory>
    requires { AllByRecursion CanFinish parts.old }
    ensures shape { AllZip SameShape parts.old parts.new }
    ensures forwarded { (published : Published) (given : Sequence GivenPart) → table.now ≡ table_of published → version ≡ version_of published
        → AllZip (Worked setup.now published) given parts.old → OnOk result (AllZip (Forwarded setup.now published) given parts.new) }
{
    let Some((part, rest)) = parts.split_first_mut() else {
        return Ok(());
    };
    part.finish(setup, table, version, gate)?;
    finish_parts(setup, table, version, gate, rest)
}

/// Forwards the frames of all parts.
fn forward_parts<R: Threads + Wait + Sync, G: Gate>(
    rt: &R,
    alloc: Global,
    setup: &Setup,
    table: &Table,
    version: u64,
    gate: &G,
    parts: &mut [Part],
    versions: &mut Versions,
    last: u64,
) -> Result<(), OutOfMemory>
    requires workers { (1 ≤ length parts.old) × (length parts.old ≤ 16) }
    requires limits { AllByRecursion (λ p. AreWithinLimits p.slots.items) parts.old }
    requires seats { AllByRecursion (λ p. p.seat ≡ None) parts.old }
    requires last { (latest table.now versions.old.last ≡ table_of (published_on table.now version versions.old.lists.items))
        × (last ≡ version_of (published_on table.now version versions.old.lists.items)) }
    ensures shape { AllZip SameShape parts.old parts.new }
    ensures forwarded { OnOk result (AllZip (Forwarded setup.now (published_on table.now version versions.old.lists.items)) parts.old parts.new) }
    ensures last { versions.new.last ≡ versions.old.last }
{
    work_parts(
        rt,
        alloc,
        setup,
        table,
        version,
        gate,
        parts,
        &mut versions.lists,
    )?;
    finish_parts(setup, last_of(table, &versions.last), last, gate, parts)
}

/// Deals the frames out, forwards them, and takes them back.
fn forward_slots<R: Threads + Wait + Sync, G: Gate>(
    rt: &R,
    alloc: Global,
    setup: &Setup,
    table: &Table,
    version: u64,
    gate: &G,
    workers: u32,
    slots: &mut [Slot],
    versions: &mut Versions,
    last: u64,
) -> Result<(), OutOfMemory>
    requires workers { (1 ≤ workers) × (workers ≤ 16) }
    requires limits { AreWithinLimits slots.old }
    requires last { (latest table.now versions.old.last ≡ table_of (published_on table.now version versions.old.lists.items))
        × (last ≡ version_of (published_on table.now version versions.old.lists.items)) }
    ensures shares { OnOk result (AreShared setup.now (published_on table.now version versions.old.lists.items) workers slots.old slots.new) }
    ensures last { versions.new.last ≡ versions.old.last }
{
    let mut parts = make_parts(alloc, workers, slots.len())?;
    let parts = parts.as_mut_slice();
    exchange(slots, parts);
    let forwarded = forward_parts(
        rt, alloc, setup, table, version, gate, parts, versions, last,
    );
    exchange(slots, parts);
    forwarded
}

/// Forwards the frames of so many slots, the first ones.
fn forward_used<R: Threads + Wait + Sync, G: Gate>(
    rt: &R,
    alloc: Global,
    setup: &Setup,
    table: &Table,
    version: u64,
    gate: &G,
    workers: u32,
    slots: &mut Vec<Slot>,
    used: usize,
    versions: &mut Versions,
    last: u64,
) -> Result<(), OutOfMemory>
    requires workers { (1 ≤ workers) × (workers ≤ 16) }
    requires many { used ≤ length slots.old.items }
    requires limits { AreWithinLimits (take used slots.old.items) }
    requires last { (latest table.now versions.old.last ≡ table_of (published_on table.now version versions.old.lists.items))
        × (last ≡ version_of (published_on table.now version versions.old.lists.items)) }
    ensures many { length slots.new.items ≡ length slots.old.items }
    ensures shares { OnOk result (AreShared setup.now (published_on table.now version versions.old.lists.items) workers (take used slots.old.items) (take used slots.new.items)) }
    ensures last { versions.new.last ≡ versions.old.last }
{
    let (front, _) = slots.as_mut_slice().split_at_mut(used);
    forward_slots(
        rt, alloc, setup, table, version, gate, workers, front, versions, last,
    )
}

/// Puts the last version in place of the table, where there is one.
fn bring(table: &mut Table, last: Option<Table>)
    ensures { table.new ≡ latest table.old last }
{
    if let Some(next) = last {
        *table = next;
    }
}

/// A round: the segments are taken, and their versions published while workers forward the frames.
pub(crate) fn run_threads<R: Threads + Wait + Sync, G: Gate>(
    rt: &R,
    alloc: Global,
    setup: &Setup,
    gate: &G,
    workers: u32,
    control: &mut Control,
    table: &mut Table,
    batch: &mut Batch,
    segments: &[Segment],
) -> Result<Bytes, OutOfMemory>
    requires workers { (1 ≤ workers) × (workers ≤ 16) }
    requires limits { AreWithinLimits batch.old }
    requires ready { Ready control.old segments.now }
    requires some { PublishesSome setup.now control.old table.old }
    ensures history { (history : Sequence Given) (log : Sequence Entry) → Publishes setup.now control.old table.old history log
        → IfOk result (λ replies. RanOnThreads setup.now workers control.new table.new history log segments.now batch.old batch.new replies) }
    ensures frames { length batch.new ≡ length batch.old }
    ensures count { (most : ℕ) → AllHold most control.old.sessions.sessions.items
        → OnOk result (AllHold (most + bytes_in segments.now) control.new.sessions.sessions.items) }
{
    let version = control.version;
    let mut replies = Bytes::new(alloc);
    let mut versions = Versions::new(alloc);
    control.take_each(&setup.roster, segments, &mut replies, table, &mut versions)?;
    forward_used(
        rt,
        alloc,
        setup,
        table,
        version,
        gate,
        workers,
        &mut batch.slots,
        batch.used,
        &mut versions,
        control.version,
    )?;
    bring(table, versions.last);
    Ok(replies)
}
