//! What one worker has of a round: its number, its seat, its buffers, and its share of the frames.

ghost use Rattle.std.specs.Prelude.{◌≡◌, ◌≤◌, length, drop, None, OnOk, IfOk};
ghost use Rattle.path_selection.specs.Published.{one_table};
ghost use Rattle.table_publish.specs.Publications.{Publications, known_of, table_of, version_of};
ghost use Rattle.worker_run.specs.Batches.{AreWithinLimits};
ghost use Rattle.worker_run.specs.declared.parts.Part.{Part as GivenPart};
ghost use Rattle.worker_run.specs.Shares.{AreWalkedBehind, AreWalkedTo, CanFinish, Filled, Forwarded, IsReady, MayLook, SameShape, SameWindow, Worked, newest_of, seen_of};

use crate::batches::Slot;
use crate::shares::forward_share;
use forwarder::{Gate, Workspace};
use path_selection::{Still, Table};
use sfc_config::Setup;
use std::alloc::Global;
use table_publish::Seat;
use wire_base::OutOfMemory;

/// A worker's part of a round.
#[derive(Drop)]
pub(crate) struct Part {
    pub(crate) worker: u32,
    // None where the window gave no seat, or where none is needed.
    pub(crate) seat: Option<Seat>,
    pub(crate) work: Workspace,
    pub(crate) slots: Vec<Slot>,
    // How many frames it forwarded, before one whose lookup was refused.
    pub(crate) done: Result<usize, OutOfMemory>,
}

/// So many slots without a frame.
fn empty_slots(alloc: Global, count: usize) -> Result<Vec<Slot>, OutOfMemory>
    ensures { IfOk result (λ slots. length slots.items ≡ count) }
{
    let mut slots = Vec::with_capacity(alloc, count)?;
    for _ in 0..count {
        slots.push(Slot::empty(alloc))?;
    }
    Ok(slots)
}

/// Forwards the frames of a share, from the seat, or where there is none over the table.
fn forward_seated<G: Gate>(
    setup: &Setup,
    table: &Table,
    version: u64,
    gate: &G,
    seat: &mut Option<Seat>,
    worker: u32,
    work: &mut Workspace,
    slots: &mut [Slot],
) -> Result<usize, OutOfMemory>
    requires limits { AreWithinLimits slots.old }
    requires count { MayLook seat.old }
    ensures window { SameWindow seat.old seat.new }
    ensures walked { IfOk result (λ done. AreWalkedTo setup.now worker (known_of (seen_of table.now version seat.new)) (newest_of version seat.old) done slots.old slots.new) }
{
    match seat {
        Some(seat) => forward_share(setup, seat, gate, worker, work, slots),
        None => {
            let mut still = Still::new(table, version);
            forward_share(setup, &mut still, gate, worker, work, slots)
        }
    }
}

/// Forwards the frames from a place on, over one table.
fn forward_rest<G: Gate>(
    setup: &Setup,
    table: &Table,
    version: u64,
    gate: &G,
    worker: u32,
    work: &mut Workspace,
    slots: &mut [Slot],
    done: usize,
) -> Result<(), OutOfMemory>
    requires place { done ≤ length slots.old }
    requires limits { AreWithinLimits (drop done slots.old) }
    ensures { OnOk result (AreWalkedBehind setup.now worker (one_table version table.now) version done slots.old slots.new) }
{
    let (_, rest) = slots.split_at_mut(done);
    let mut still = Still::new(table, version);
    forward_share(setup, &mut still, gate, worker, work, rest)?;
    Ok(())
}

impl Part {
    /// A part of a worker, with so many slots that wait for frames.
    pub fn new(alloc: Global, worker: u32, count: usize) -> Result<Part, OutOfMemory>
        ensures { IfOk result (λ part. (part.worker ≡ worker) × (part.seat ≡ None) × (length part.slots.items ≡ count)) }
    {
        Ok(Part {
            worker,
            seat: None,
            work: Workspace::new(alloc, false)?,
            slots: empty_slots(alloc, count)?,
            done: Ok(0),
        })
    }

    /// Forwards the frames in order, from the seat, or where there is none over the table that the round opens with, up to one
    /// whose lookup is refused.
    pub fn fill<G: Gate>(&mut self, setup: &Setup, table: &Table, version: u64, gate: &G)
        requires { IsReady self.old }
        ensures { Filled setup.now table.now version self.old self.new }
    {
        self.done = forward_seated(
            setup,
            table,
            version,
            gate,
            &mut self.seat,
            self.worker,
            &mut self.work,
            self.slots.as_mut_slice(),
        );
    }

    /// Forwards the frames that are left over the last table of the round.
    pub fn finish<G: Gate>(
        &mut self,
        setup: &Setup,
        table: &Table,
        version: u64,
        gate: &G,
    ) -> Result<(), OutOfMemory>
        requires { CanFinish self.old }
        ensures shape { SameShape self.old self.new }
        ensures forwarded { (published : Publications) (given : GivenPart) → table.now ≡ table_of published → version ≡ version_of published
            → Worked setup.now published given self.old → OnOk result (Forwarded setup.now published given self.new) }
    {
        let done = self.done?;
        forward_rest(
            setup,
            table,
            version,
            gate,
            self.worker,
            &mut self.work,
            self.slots.as_mut_slice(),
            done,
        )
    }
}
