//! The frames of a round are dealt out in order, in shares whose sizes differ by at most 1, and taken back.

ghost use Rattle.std.specs.Prelude.{◌≡◌, ◌+◌, ◌/◌, ◌<◌, ◌≤◌, ◌^◌, ◌⊎◌, length, IfOk, None};
ghost use Rattle.std.specs.List.{AllByRecursion, AllZip};
ghost use Rattle.worker_run.specs.Deals.{IsSize};
ghost use Rattle.worker_run.specs.Shares.{AreNumbered, Exchanged, slots_of};

use crate::batches::Slot;
use crate::parts::Part;
use core::mem::swap;
use std::alloc::Global;
use wire_base::OutOfMemory;

/// The size of a worker's share: the first `extra` workers have one frame more than the others.
fn share_of(worker: u32, each: usize, extra: usize) -> usize
    requires { worker < extra → each + 1 < 2 ^ 64 }
    ensures { ((worker < extra) × (result ≡ each + 1)) ⊎ ((extra ≤ worker) × (result ≡ each)) }
{
    if (worker as usize) < extra {
        each + 1
    } else {
        each
    }
}

/// The parts of so many workers, for so many frames.
pub(crate) fn make_parts(
    alloc: Global,
    workers: u32,
    count: usize,
) -> Result<Vec<Part>, OutOfMemory>
    requires { 1 ≤ workers }
    ensures numbered { IfOk result (λ parts. AreNumbered 0 parts.items × (length parts.items ≡ workers)) }
    ensures seats { IfOk result (λ parts. AllByRecursion (λ p. p.seat ≡ None) parts.items) }
    ensures sized { IfOk result (λ parts. AllByRecursion (λ p. IsSize (count / workers) (length p.slots.items)) parts.items) }
    ensures many { IfOk result (λ parts. length (slots_of parts.items) ≡ count) }
{
    let each = count / workers as usize;
    let extra = count % workers as usize;
    let mut parts = Vec::new(alloc);
    for worker in 0..workers {
        parts.push(Part::new(alloc, worker, share_of(worker, each, extra))?)?;
    }
    Ok(parts)
}

/// Exchanges slots, one by one.
fn exchange_slots(slots: &mut [Slot], others: &mut [Slot])
    requires { length slots.old ≡ length others.old }
    ensures slots { slots.new ≡ others.old }
    ensures others { others.new ≡ slots.old }
{
    let Some((slot, slots)) = slots.split_first_mut() else {
        return;
    };
    let Some((other, others)) = others.split_first_mut() else {
        return;
    };
    swap(slot, other);
    exchange_slots(slots, others);
}

/// Exchanges the slots of a batch with those of the parts, in order.
pub(crate) fn exchange(slots: &mut [Slot], parts: &mut [Part])
    requires { length slots.old ≡ length (slots_of parts.old) }
    ensures slots { slots.new ≡ slots_of parts.old }
    ensures parts { slots_of parts.new ≡ slots.old }
    ensures shape { AllZip Exchanged parts.old parts.new }
{
    let Some((part, parts)) = parts.split_first_mut() else {
        return;
    };
    let (front, back) = slots.split_at_mut(part.slots.len());
    exchange_slots(front, part.slots.as_mut_slice());
    exchange(back, parts);
}
