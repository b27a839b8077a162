//! The frames of a batch, forwarded over one table.

ghost use Rattle.std.specs.Prelude.{◌≡◌, ◌≤◌, length, drop, take, All, OnOk};
ghost use Rattle.std.specs.List.{AllZip};
ghost use Rattle.pcap_io.specs.Captures.{IsWithinLimits};
ghost use Rattle.worker_run.specs.Batches.{AreWithinLimits};
ghost use Rattle.worker_run.specs.Steps.{Forwards};

use crate::batches::{Batch, Slot};
use forwarder::{FrameIn, OpenGate, Workspace, forward};
use path_selection::{Still, Table};
use record_text::Record;
use sfc_config::Setup;
use wire_base::OutOfMemory;

/// Puts in the record of a frame, and the frame as its walk left it.
pub(crate) fn put(slot: &mut Slot, outcome: Record, work: &Workspace) -> Result<(), OutOfMemory>
    ensures { OnOk result (slot.new ≡ record {
      frame = record { seconds = slot.old.frame.seconds; fraction = slot.old.frame.fraction; original = work.now.frame.original; bytes = work.now.frame.bytes };
      outcome = outcome;
    }) }
{
    slot.bytes.clear();
    slot.bytes.push_all(work.frame())?;
    slot.original = work.original();
    slot.outcome = outcome;
    Ok(())
}

/// The record of a frame over one table.
fn forward_over(
    setup: &Setup,
    table: &Table,
    version: u64,
    work: &mut Workspace,
    slot: &Slot,
) -> Record
    requires { IsWithinLimits slot.now.frame }
    ensures { Forwards setup.now version table.now slot.now (record {
      frame = record { seconds = slot.now.frame.seconds; fraction = slot.now.frame.fraction; original = work.new.frame.original; bytes = work.new.frame.bytes };
      outcome = result;
    }) }
{
    let mut still = Still::new(table, version);
    let frame = FrameIn {
        bytes: slot.bytes.as_slice(),
        original: slot.original,
    };
    match forward(setup, &mut still, &OpenGate, work, frame, 0) {
        Some(outcome) => outcome,
        None => unreachable!(),
    }
}

/// Forwards a frame as worker 0, and puts its record and what its walk leaves in its place.
fn forward_slot(
    setup: &Setup,
    table: &Table,
    version: u64,
    work: &mut Workspace,
    slot: &mut Slot,
) -> Result<(), OutOfMemory>
    requires { IsWithinLimits slot.old.frame }
    ensures { OnOk result (Forwards setup.now version table.now slot.old slot.new) }
{
    let outcome = forward_over(setup, table, version, work, slot);
    put(slot, outcome, work)
}

/// Forwards the frames of so many slots, in order.
fn forward_slots(
    setup: &Setup,
    table: &Table,
    version: u64,
    work: &mut Workspace,
    slots: &mut Vec<Slot>,
    used: usize,
) -> Result<(), OutOfMemory>
    requires many { used ≤ length slots.old.items }
    requires limits { AreWithinLimits (take used slots.old.items) }
    ensures many { length slots.new.items ≡ length slots.old.items }
    ensures each { OnOk result (AllZip (Forwards setup.now version table.now) (take used slots.old.items) (take used slots.new.items)) }
{
    for i in 0..used {
        forward_slot(setup, table, version, work, &mut slots[i])?;
    }
    Ok(())
}

/// Forwards all frames of a batch, in order.
pub(crate) fn forward_all(
    setup: &Setup,
    table: &Table,
    version: u64,
    work: &mut Workspace,
    batch: &mut Batch,
) -> Result<(), OutOfMemory>
    requires limits { AreWithinLimits batch.old }
    ensures frames { length batch.new ≡ length batch.old }
    ensures each { OnOk result (AllZip (Forwards setup.now version table.now) batch.old batch.new) }
{
    forward_slots(setup, table, version, work, &mut batch.slots, batch.used)
}
