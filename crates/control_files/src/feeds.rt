ghost use Rattle.std.specs.Prelude.{◌≡◌, ◌≤◌, [], ◌++◌, length, map, take, drop, IfOk, OnErr};
ghost use Rattle.control_files.specs.Segments.{numbers};
ghost use Rattle.control_files.specs.Steps.{segment_of};

use crate::reasons::{ControlFault, ControlReason, Refusal};
use crate::segments::{Mark, Segment, SegmentHead};
use crate::steps::{SegmentStep, refusal_at, segment_step};
use std::alloc::Global;
use std::marker::Model;
use wire_base::{Bytes, FrontBuffer, List, OutOfMemory};

/// A segment with bytes of its own, from how it stands in the file.
fn own_segment(alloc: Global, head: SegmentHead, segment: &[u8]) -> Result<Segment, OutOfMemory>
    requires { 23 ≤ length segment.now }
    ensures { IfOk result (λ own. own ≡ segment_of head (drop 23 segment.now)) }
{
    let mut bytes = Bytes::new(alloc);
    bytes.push_all(&segment[23..])?;
    Ok(Segment {
        kind: head.kind,
        peer: head.peer,
        moment: head.moment,
        position: head.position,
        bytes,
    })
}

/// The numbers of the peers, without what else is said of them.
fn numbers_of(alloc: Global, peers: &[(u16, u32)]) -> Result<List<u16>, OutOfMemory>
    ensures { IfOk result (λ list. list ≡ numbers peers.now) }
{
    let mut list = List::new(alloc);
    for peer in peers {
        list.push(peer.0)?;
    }
    Ok(list)
}

/// A control file that comes in pieces.
///
/// `push` takes a piece and `next` gives a segment with bytes of its own. A caller that reads a file wants no copies: it
/// makes room (`make_room`), reads straight into it (`room`), says how much came (`filled`), and takes each whole segment as
/// `next_segment` and `segment` lend it, which asks for no memory.
///
/// Clauses see the numbers of the peers, which no call changes, the bytes that are not used up, how many were used up, and the
/// mark of the segment that was given last. What a feed took and gave is its history (`Stands`).
#[derive(Debug, Drop)]
pub struct ControlFeed {
    alloc: Global,
    peers: List<u16>,
    buffer: FrontBuffer,
    mark: Mark,
    /// How many bytes of the file are used.
    place: u64,
    /// Whether there was no memory before.
    failed: bool,
}

impl Model for ControlFeed {
    ghost use Rattle.std.specs.Prelude.{◌+◌, ◌<◌, ◌^◌, length};
    ghost use Rattle.control_files.specs.Kept.{Kept};

    ghost Value = { Kept };

    ghost view = { λ f. record { failed = f.failed; peers = f.peers; mark = f.mark; lent = f.buffer.passed; rest = f.buffer.rest; room = f.buffer.room; place = f.place } };

    ghost invariant = { λ f. f.place + length f.buffer.rest < 2 ^ 64 };
}

impl ControlFeed {
    ghost use Rattle.std.specs.Prelude.{◌≡◌, ◌↔◌, ◌≤◌, ◌+◌, ◌^◌, ◌<◌, ℕ, List as Sequence, true, false, None, Some, [], ◌++◌, length, take, drop, OnOk, OnErr, IfOk, IfErr, IsSome, IsNone, IsOk, Ok, Err};
    ghost use Rattle.std.specs.Borrow.{sem};
    ghost use Rattle.control_files.specs.Segments.{numbers, start};
    ghost use Rattle.control_files.specs.Kept.{Kept};
    ghost use Rattle.control_files.specs.Lending.{LendsRoom};
    ghost use Rattle.control_files.specs.Calls.{GivesNext, Exact, ExactOwn, RefusedAt, IsHeld, IsQuiet, IsStop, lent_segment};
    ghost use Rattle.control_files.specs.Reads.{Finishes, IsShortAt, ReadsControl};
    ghost use Rattle.control_files.specs.Refusals.{refusal_of};
    ghost use Rattle.control_files.specs.Streams.{Stands, NextLent, Next};
    ghost use Rattle.control_files.specs.declared.segments.Segment.{Segment as Given};
    ghost use Rattle.control_files.specs.declared.reasons.Refusal.{Refusal as Told};
    ghost use Rattle.control_files.specs.declared.reasons.ControlFault.TheVariants as faults;

    /// A feed that has taken nothing, for the peers of these numbers, each with its AS.
    pub fn new(alloc: Global, peers: &List<(u16, u32)>) -> Result<ControlFeed, OutOfMemory>
        ensures value { IfOk result (λ feed. feed ≡ record { failed = false; peers = numbers peers.now; mark = start; lent = []; rest = []; room = []; place = 0 }) }
        ensures history { IfOk result (λ feed. Stands feed [] []) }
        ensures held { IfOk result (λ feed. IsHeld feed) }
    {
        let peers = numbers_of(alloc, peers.as_slice())?;
        Ok(ControlFeed {
            alloc,
            peers,
            buffer: FrontBuffer::new(alloc),
            mark: Mark {
                moment: 0,
                position: 0,
            },
            place: 0,
            failed: false,
        })
    }

    /// How many bytes of the file are used up.
    pub fn place(&self) -> u64
        ensures value { result ≡ self.now.place }
        ensures range { self.now.place + length self.now.rest < 2 ^ 64 }
    {
        self.place
    }

    /// How many bytes are kept.
    pub fn held(&self) -> usize
        ensures { result ≡ length self.now.rest }
    {
        self.buffer.rest().len()
    }

    /// The moment and the position of the segment that was given last; zeros before the first.
    pub fn mark(&self) -> Mark
        ensures { result ≡ self.now.mark }
    {
        self.mark
    }

    /// Makes the room at least so long. What was lent is given up. Where there is no memory, nothing else changes.
    pub fn make_room(&mut self, at_least: usize) -> Result<(), OutOfMemory>
        requires { at_least < 2 ^ 62 }
        ensures peers { self.new.peers ≡ self.old.peers }
        ensures mark { self.new.mark ≡ self.old.mark }
        ensures rest { self.new.rest ≡ self.old.rest }
        ensures place { self.new.place ≡ self.old.place }
        ensures failed { self.new.failed ≡ self.old.failed }
        ensures room { OnOk result (at_least ≤ length self.new.room) }
        ensures history { (taken : Sequence ℕ) (given : Sequence Given) → Stands self.old taken given → Stands self.new taken given }
    {
        self.buffer.make_room(at_least)
    }

    /// The room, for the next bytes of the file to be read into.
    pub fn room(&mut self) -> &mut [u8]
        ensures* writes_back { sem 𝓛 (LendsRoom self.entry result) }
        ensures value { result.now ≡ self.old.room }
    {
        self.buffer.room()
    }

    /// The first bytes of the room are the next bytes of the file.
    pub fn filled(&mut self, count: usize)
        requires there { count ≤ length self.old.room }
        requires few { self.old.place + length self.old.rest + count < 2 ^ 64 }
        ensures peers { self.new.peers ≡ self.old.peers }
        ensures mark { self.new.mark ≡ self.old.mark }
        ensures rest { self.new.rest ≡ self.old.rest ++ take count self.old.room }
        ensures place { self.new.place ≡ self.old.place }
        ensures lent { self.new.lent ≡ self.old.lent }
        ensures failed { self.new.failed ≡ self.old.failed }
        ensures history { (taken : Sequence ℕ) (given : Sequence Given) → Stands self.old taken given
            → Stands self.new (taken ++ take count self.old.room) given }
        ensures refused { (t : Told) → RefusedAt self.old t → RefusedAt self.new t }
    {
        self.buffer.filled(count);
    }

    /// Takes the next piece of the file. Where there is no memory for it, the feed has failed.
    pub fn push(&mut self, piece: &[u8]) -> Result<(), OutOfMemory>
        requires { self.old.place + length self.old.rest + length piece.now < 2 ^ 64 }
        ensures peers { self.new.peers ≡ self.old.peers }
        ensures mark { self.new.mark ≡ self.old.mark }
        ensures place { self.new.place ≡ self.old.place }
        ensures rest { OnOk result (self.new.rest ≡ self.old.rest ++ piece.now) }
        ensures err { OnErr result (self.new.failed ≡ true) }
        ensures failed { self.old.failed ≡ true → OnOk result ⊥ }
        ensures history { (taken : Sequence ℕ) (given : Sequence Given) → Stands self.old taken given → OnOk result (Stands self.new (taken ++ piece.now) given) }
        ensures refused { (t : Told) → RefusedAt self.old t → OnOk result (RefusedAt self.new t) }
    {
        if self.failed {
            return Err(OutOfMemory);
        }
        match self.buffer.push_all(piece) {
            Ok(()) => Ok(()),
            Err(fault) => {
                self.failed = true;
                Err(fault)
            }
        }
    }

    /// The segment that `next_segment` gave last, as it stands in the file: 23 bytes of its head, and then its own.
    pub fn segment(&self) -> &[u8]
        ensures { result.now ≡ self.now.lent }
    {
        self.buffer.passed()
    }

    /// Uses up a segment with this head, which stands at the front of the rest.
    fn pass(&mut self, head: SegmentHead)
        requires { 23 + head.length ≤ length self.old.rest }
        ensures lent { self.new.lent ≡ take (23 + head.length) self.old.rest }
        ensures rest { self.new.rest ≡ drop (23 + head.length) self.old.rest }
        ensures place { self.new.place ≡ self.old.place + (23 + head.length) }
        ensures moment { self.new.mark.moment ≡ head.moment }
        ensures position { self.new.mark.position ≡ head.position }
        ensures peers { self.new.peers ≡ self.old.peers }
        ensures room { self.new.room ≡ self.old.room }
        ensures failed { self.new.failed ≡ self.old.failed }
    {
        let length = 23 + head.length as usize;
        self.buffer.pass(length);
        self.place += length as u64;
        self.mark = Mark {
            moment: head.moment,
            position: head.position,
        };
    }

    /// The next segment's head; `segment` then lends the segment, until the next call. `None` is "not yet". It takes no memory.
    ///
    /// A refusal is told as soon as its field is there, with its place in the file, and again from then on: nothing changes.
    pub fn next_segment(&mut self) -> Result<Option<SegmentHead>, Refusal>
        ensures next { GivesNext self.old self.new result }
        ensures exact { Exact self.old self.new result }
        ensures history { (taken : Sequence ℕ) (given : Sequence Given) → Stands self.old taken given → NextLent result self.new taken given }
        ensures refused { IfErr result (λ t. RefusedAt self.new t) }
        ensures lent { IfOk result (λ h. IsSome h → 23 ≤ length self.new.lent) }
        ensures count { self.new.place + length self.new.rest ≡ self.old.place + length self.old.rest }
        ensures falls { IfOk result (λ h. IsSome h → length self.new.rest < length self.old.rest) }
        ensures held { IfOk result (λ h. IsNone h → length self.new.rest ≤ 65557) }
        ensures peers { self.new.peers ≡ self.old.peers }
        ensures failed { self.new.failed ≡ self.old.failed }
    {
        match segment_step(
            self.peers.as_slice(),
            self.mark,
            self.place,
            self.buffer.rest(),
        ) {
            SegmentStep::Wait => Ok(None),
            SegmentStep::Refused(refusal) => Err(refusal),
            SegmentStep::Whole(head) => {
                self.pass(head);
                Ok(Some(head))
            }
        }
    }

    /// The next segment, with bytes of its own; `None` is "not yet". Where there is no memory, the feed has failed.
    ///
    /// A refusal is told as soon as its field is there, with its place in the file, and again from then on; want of memory too.
    pub fn next(&mut self) -> Result<Option<Segment>, ControlFault>
        ensures exact { self.old.failed ≡ false → ExactOwn self.old result }
        ensures history { (taken : Sequence ℕ) (given : Sequence Given) → Stands self.old taken given → Next result self.new taken given }
        ensures refused { IfErr result (λ fault. IsStop self.new fault) }
        ensures failed { self.old.failed ≡ true → result ≡ Err faults.OutOfMemory }
        ensures count { self.new.place + length self.new.rest ≡ self.old.place + length self.old.rest }
        ensures falls { IfOk result (λ s. IsSome s → length self.new.rest < length self.old.rest) }
        ensures held { IfOk result (λ s. IsNone s → length self.new.rest ≤ 65557) }
        ensures peers { self.new.peers ≡ self.old.peers }
    {
        if self.failed {
            return Err(ControlFault::OutOfMemory);
        }
        match self.next_segment() {
            Ok(Some(head)) => match own_segment(self.alloc, head, self.segment()) {
                Ok(segment) => Ok(Some(segment)),
                Err(_) => {
                    self.failed = true;
                    Err(ControlFault::OutOfMemory)
                }
            },
            Ok(None) => Ok(None),
            Err(refusal) => Err(ControlFault::Bad(refusal.place, refusal.reason)),
        }
    }

    /// What stands at the front of the rest and is refused.
    fn refusal(&self) -> Option<Refusal>
        ensures { result ≡ refusal_of self.now.peers self.now.mark self.now.place self.now.rest }
    {
        refusal_at(
            self.peers.as_slice(),
            self.mark,
            self.place,
            self.buffer.rest(),
        )
    }

    /// The refusal of a file that ends here.
    fn short(&self) -> Refusal
        ensures { IsShortAt (self.now.place + length self.now.rest) result }
    {
        Refusal {
            place: self.place + self.buffer.rest().len() as u64,
            reason: ControlReason::Short,
        }
    }

    /// Why the file is none where it ends here: what is refused, or the segment that is not whole.
    fn stop(&self) -> Option<Refusal>
        ensures history { (taken : Sequence ℕ) (given : Sequence Given) → Stands self.now taken given → IsQuiet self.now
            → ReadsControl taken self.now.peers given result }
        ensures none { (result ≡ None) ↔ (self.now.rest ≡ []) }
    {
        if let Some(refusal) = self.refusal() {
            return Some(refusal);
        }
        if self.buffer.rest().is_empty() {
            return None;
        }
        Some(self.short())
    }

    /// Whether the file is whole where it ends here, once `next` has answered `None` or a fault: then the segments given are
    /// all of it. After a fault it answers that fault; else `Short` exactly where bytes are held.
    pub fn finish(&self) -> Result<(), ControlFault>
        ensures history { (taken : Sequence ℕ) (given : Sequence Given) → Stands self.now taken given → IsQuiet self.now
            → Finishes result taken self.now.peers given }
        ensures failed { (result ≡ Err faults.OutOfMemory) ↔ (self.now.failed ≡ true) }
        ensures whole { self.now.failed ≡ false → (IsOk result ↔ (self.now.rest ≡ [])) }
    {
        if self.failed {
            return Err(ControlFault::OutOfMemory);
        }
        match self.stop() {
            Some(refusal) => Err(ControlFault::Bad(refusal.place, refusal.reason)),
            None => Ok(()),
        }
    }
}
