//! A worker's share of a round's frames, forwarded in order over any tables.

ghost use Rattle.std.specs.Prelude.{◌≡◌, ◌+◌, ◌-◌, ◌^◌, ◌<◌, ◌⊎◌, length, MatchBool, MatchOption, IfOk};
ghost use Rattle.pcap_io.specs.Captures.{IsWithinLimits};
ghost use Rattle.path_selection.specs.Published.{StartsWith};
ghost use Rattle.worker_run.specs.Batches.{AreWithinLimits};
ghost use Rattle.worker_run.specs.Shares.{AreWalkedTo, Walked, left_in};

use crate::batches::Slot;
use crate::forwarding::put;
use forwarder::{FrameIn, Gate, Workspace, forward};
use path_selection::Tables;
use record_text::Record;
use sfc_config::Setup;
use wire_base::OutOfMemory;

/// The record of a frame. None where a lookup was refused.
fn record_over<T: Tables, G: Gate>(
    setup: &Setup,
    tables: &mut T,
    gate: &G,
    worker: u32,
    work: &mut Workspace,
    slot: &Slot,
) -> Option<Record>
    requires limits { IsWithinLimits slot.now.frame }
    requires count { T.refused tables.old < 2 ^ 64 - 1 }
    ensures origin { T.origin tables.new ≡ T.origin tables.old }
    ensures grows { StartsWith (T.known tables.new) (T.known tables.old) }
    ensures refused { MatchOption result (T.refused tables.old < T.refused tables.new) (λ _. T.refused tables.new ≡ T.refused tables.old) }
    ensures walked { MatchOption result (Unit {0}) (λ r. Walked setup.now worker (T.known tables.new) (T.seen tables.old) (T.seen tables.new) slot.now (left_in work.new slot.now r)) }
{
    let frame = FrameIn {
        bytes: slot.bytes.as_slice(),
        original: slot.original,
    };
    forward(setup, tables, gate, work, frame, worker)
}

/// Forwards a frame, and puts its record and what its walk leaves in its place. False where a lookup was refused; the slot is then as
/// it was.
fn forward_next<T: Tables, G: Gate>(
    setup: &Setup,
    tables: &mut T,
    gate: &G,
    worker: u32,
    work: &mut Workspace,
    slot: &mut Slot,
) -> Result<bool, OutOfMemory>
    requires limits { IsWithinLimits slot.old.frame }
    requires count { T.refused tables.old < 2 ^ 64 - 1 }
    ensures origin { T.origin tables.new ≡ T.origin tables.old }
    ensures grows { StartsWith (T.known tables.new) (T.known tables.old) }
    ensures refused { IfOk result (λ went. MatchBool went (T.refused tables.new ≡ T.refused tables.old) (T.refused tables.old < T.refused tables.new)) }
    ensures walked { IfOk result (λ went. MatchBool went
        (Walked setup.now worker (T.known tables.new) (T.seen tables.old) (T.seen tables.new) slot.old slot.new) (slot.new ≡ slot.old)) }
{
    let Some(outcome) = record_over(setup, tables, gate, worker, work, slot) else {
        return Ok(false);
    };
    put(slot, outcome, work)?;
    Ok(true)
}

/// Forwards frames in order, up to one whose lookup is refused, and says how many it forwarded. The others are as they were.
pub(crate) fn forward_share<T: Tables, G: Gate>(
    setup: &Setup,
    tables: &mut T,
    gate: &G,
    worker: u32,
    work: &mut Workspace,
    slots: &mut [Slot],
) -> Result<usize, OutOfMemory>
    requires limits { AreWithinLimits slots.old }
    requires count { T.refused tables.old < 2 ^ 64 - 1 }
    ensures origin { T.origin tables.new ≡ T.origin tables.old }
    ensures grows { StartsWith (T.known tables.new) (T.known tables.old) }
    ensures walked { IfOk result (λ done. AreWalkedTo setup.now worker (T.known tables.new) (T.seen tables.old) done slots.old slots.new) }
    ensures all { IfOk result (λ done. (done ≡ length slots.old) ⊎ (T.refused tables.old < T.refused tables.new)) }
{
    let Some((slot, rest)) = slots.split_first_mut() else {
        return Ok(0);
    };
    if !forward_next(setup, tables, gate, worker, work, slot)? {
        return Ok(0);
    }
    let more = forward_share(setup, tables, gate, worker, work, rest)?;
    Ok(more + 1)
}
