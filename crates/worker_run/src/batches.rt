//! The frames of a round.

ghost use Rattle.std.specs.Prelude.{◌≡◌, ◌≤◌, ◌<◌, [], length, take, OnOk, HoldsAt};
ghost use Rattle.worker_run.specs.Batches.{frame_of, no_walk, pushed};

use arrayvec::ArrayVec;
use pcap_io::{Captured, PacketHead};
use record_text::{End, Record};
use std::alloc::Global;
use std::marker::Model;
use wire_base::{Bytes, OutOfMemory};

/// How many bytes a walk may add to a frame, as tags of 4 bytes: one for each of at most 62 instances.
const MOST_TAGS: usize = 248;

/// A frame with its times, and the record of it.
#[derive(Debug, Drop)]
pub(crate) struct Slot {
    pub(crate) seconds: u32,
    pub(crate) fraction: u32,
    pub(crate) original: u32,
    pub(crate) bytes: Bytes,
    pub(crate) outcome: Record,
}

impl Model for Slot {
    ghost use Rattle.worker_run.specs.Batches.{Carried};

    ghost Value = { Carried };

    ghost view = { λ s. record { frame = record { seconds = s.seconds; fraction = s.fraction; original = s.original; bytes = s.bytes }; outcome = s.outcome } };
}

/// The record before a round.
fn no_walk() -> Record
    ensures { result ≡ no_walk }
{
    Record {
        worker: 0,
        path: None,
        versions: ArrayVec::new(),
        visits: ArrayVec::new(),
        end: End::Bypass,
    }
}

impl Slot {
    pub(crate) fn empty(alloc: Global) -> Slot {
        Slot {
            seconds: 0,
            fraction: 0,
            original: 0,
            bytes: Bytes::new(alloc),
            outcome: no_walk(),
        }
    }

    /// Puts a frame in place of the one that was there, in the same buffer, which then has room for the tags of a walk.
    fn fill(&mut self, head: PacketHead, bytes: &[u8]) -> Result<(), OutOfMemory>
        ensures { OnOk result (self.new ≡ pushed (frame_of head bytes.now)) }
    {
        self.bytes.clear();
        self.bytes.reserve(bytes.len().saturating_add(MOST_TAGS))?;
        self.bytes.push_all(bytes)?;
        self.seconds = head.seconds;
        self.fraction = head.fraction;
        self.original = head.original;
        self.outcome = no_walk();
        Ok(())
    }
}

/// The frames of a round, and after it their records and what their walks left. It keeps its buffers when it is cleared.
#[derive(Debug, Drop)]
pub struct Batch {
    alloc: Global,
    pub(crate) slots: Vec<Slot>,
    pub(crate) used: usize,
}

impl Model for Batch {
    ghost use Rattle.std.specs.Prelude.{◌≤◌, List, length, take};
    ghost use Rattle.worker_run.specs.Batches.{Carried};

    ghost Value = { List Carried };

    ghost view = { λ b. take b.used b.slots.items };

    ghost invariant = { λ b. b.used ≤ length b.slots.items };
}

/// Sees to it that there is a slot behind those that are used.
fn make_slot(alloc: Global, slots: &mut Vec<Slot>, used: usize) -> Result<(), OutOfMemory>
    requires { used ≤ length slots.old.items }
    ensures kept { take used slots.new.items ≡ take used slots.old.items }
    ensures still { used ≤ length slots.new.items }
    ensures there { OnOk result (used < length slots.new.items) }
{
    if used < slots.len() {
        return Ok(());
    }
    slots.push(Slot::empty(alloc))?;
    Ok(())
}

impl Batch {
    ghost use Rattle.std.specs.Prelude.{◌^◌, ◌∷◌, ◌++◌, OnErr};

    /// A batch without frames. It takes no memory.
    pub fn new(alloc: Global) -> Batch
        ensures { result ≡ [] }
    {
        Batch {
            alloc,
            slots: Vec::new(alloc),
            used: 0,
        }
    }

    /// Takes a frame in, behind the others. Where there is no memory, the batch is unchanged.
    pub fn push(&mut self, frame: &Captured) -> Result<(), OutOfMemory>
        requires { length frame.now.bytes < 2 ^ 32 }
        ensures ok { OnOk result (self.new ≡ self.old ++ pushed frame.now ∷ []) }
        ensures err { OnErr result (self.new ≡ self.old) }
    {
        let head = PacketHead {
            seconds: frame.seconds,
            fraction: frame.fraction,
            captured: frame.bytes.as_slice().len() as u32,
            original: frame.original,
        };
        self.push_lent(head, frame.bytes.as_slice())
    }

    /// Takes a frame in, behind the others, from its head and its bytes, which are copied once. Where there is no memory, the batch
    /// is unchanged.
    pub fn push_lent(&mut self, head: PacketHead, bytes: &[u8]) -> Result<(), OutOfMemory>
        ensures ok { OnOk result (self.new ≡ self.old ++ pushed (frame_of head bytes.now) ∷ []) }
        ensures err { OnErr result (self.new ≡ self.old) }
    {
        make_slot(self.alloc, &mut self.slots, self.used)?;
        self.slots[self.used].fill(head, bytes)?;
        self.used += 1;
        Ok(())
    }

    /// How many frames there are.
    pub fn len(&self) -> usize
        ensures { result ≡ length self.now }
    {
        self.used
    }

    /// Lets all frames go. The buffers are kept for the next ones.
    pub fn clear(&mut self)
        ensures { self.new ≡ [] }
    {
        self.used = 0;
    }

    /// The record of the frame at a place, counted from 0: before a round that of a frame that no rule puts on a path.
    pub fn end_of(&self, i: usize) -> &Record
        requires { i < length self.now }
        ensures { HoldsAt (λ c. result.now ≡ c.outcome) self.now i }
    {
        &self.slots[i].outcome
    }

    /// The captured bytes of the frame at a place: before a round as they were pushed, and then as its walk left them.
    pub fn bytes_of(&self, i: usize) -> &[u8]
        requires { i < length self.now }
        ensures { HoldsAt (λ c. result.now ≡ c.frame.bytes) self.now i }
    {
        self.slots[i].bytes.as_slice()
    }

    /// The length on the wire of the frame at a place: before a round as it was pushed, and then as its walk left it.
    pub fn original_of(&self, i: usize) -> u32
        requires { i < length self.now }
        ensures { HoldsAt (λ c. result ≡ c.frame.original) self.now i }
    {
        self.slots[i].original
    }

    /// The seconds and the fraction of the frame at a place, as they were pushed.
    pub fn times_of(&self, i: usize) -> (u32, u32)
        requires { i < length self.now }
        ensures { HoldsAt (λ c. (result.0 ≡ c.frame.seconds) × (result.1 ≡ c.frame.fraction)) self.now i }
    {
        let slot = &self.slots[i];
        (slot.seconds, slot.fraction)
    }
}
