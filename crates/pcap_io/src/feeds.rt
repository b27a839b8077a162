ghost use Rattle.std.specs.Prelude.{◌≡◌, ◌≤◌, length, drop, IfOk};
ghost use Rattle.pcap_io.specs.Fronts.{frame_of};

use crate::forms::Form;
use crate::frames::{Captured, PacketHead};
use crate::reasons::{CaptureFault, CaptureReason, Refusal};
use crate::steps::{HeadStep, PacketStep, head_step, packet_step};
use std::alloc::Global;
use std::marker::Model;
use wire_base::{Bytes, FrontBuffer, OutOfMemory};

/// A frame with bytes of its own, from its packet.
fn own_frame(alloc: Global, head: PacketHead, packet: &[u8]) -> Result<Captured, OutOfMemory>
    requires { 16 ≤ length packet.now }
    ensures { IfOk result (λ frame. frame ≡ frame_of head (drop 16 packet.now)) }
{
    let mut bytes = Bytes::new(alloc);
    bytes.push_all(&packet[16..])?;
    Ok(Captured {
        seconds: head.seconds,
        fraction: head.fraction,
        original: head.original,
        bytes,
    })
}

/// A capture that comes in pieces.
///
/// `push` takes a piece and `next` gives a frame with bytes of its own. A caller that reads a file wants no copies: it
/// makes room (`make_room`), reads straight into it (`room`), says how much came (`filled`), and takes each whole frame as
/// `next_packet` and `packet` lend it, which asks for no memory.
///
/// Clauses see the bytes that are not used up, how many were used up, and the form of the file header behind which they
/// stand. What a feed took and gave is its history (`Stands`).
#[derive(Debug, Drop)]
pub struct CaptureFeed {
    alloc: Global,
    buffer: FrontBuffer,
    form: Option<Form>,
    /// How many bytes of the capture are used.
    place: u64,
    /// Whether there was no memory before.
    failed: bool,
}

impl Model for CaptureFeed {
    ghost use Rattle.std.specs.Prelude.{◌+◌, ◌<◌, ◌^◌, length};
    ghost use Rattle.pcap_io.specs.Kept.{Kept};

    ghost Value = { Kept };

    ghost view = { λ f. record { failed = f.failed; form = f.form; lent = f.buffer.passed; rest = f.buffer.rest; room = f.buffer.room; place = f.place } };

    ghost invariant = { λ f. f.place + length f.buffer.rest < 2 ^ 64 };
}

impl CaptureFeed {
    ghost use Rattle.std.specs.Prelude.{◌≡◌, ◌↔◌, ◌≤◌, ◌+◌, ◌^◌, ◌<◌, ℕ, List, true, false, None, Some, [], ◌++◌, length, take, drop, OnOk, OnErr, IfOk, IfErr, IfSome, IsSome, IsNone, MatchOption, Ok, Err};
    ghost use Rattle.std.specs.Borrow.{sem};
    ghost use Rattle.pcap_io.specs.Kept.{Kept};
    ghost use Rattle.pcap_io.specs.Lending.{LendsRoom};
    ghost use Rattle.pcap_io.specs.Calls.{NextIn, Exact, ExactOwn, ExactIn, Lends, IsNotYet, Refuses, BeginsAt, HeldIn, RefusedAt, IsQuiet, IsStop, lent_frame};
    ghost use Rattle.pcap_io.specs.Captures.{packet};
    ghost use Rattle.pcap_io.specs.Reads.{Finishes, IsShortAt, Reads};
    ghost use Rattle.pcap_io.specs.Streams.{Stands, NextLent, Next, Begin};
    ghost use Rattle.pcap_io.specs.declared.frames.Captured.{Captured as Frame};
    ghost use Rattle.pcap_io.specs.declared.reasons.Refusal.{Refusal as Told};
    ghost use Rattle.pcap_io.specs.declared.reasons.CaptureFault.TheVariants as faults;

    /// A feed that has taken nothing.
    #[tactic(auto, using(crate::proofs::FileHeadLemmas::held_4))]
    pub fn new(alloc: Global) -> CaptureFeed
        ensures value { result ≡ record { failed = false; form = None; lent = []; rest = []; room = []; place = 0 } }
        ensures history { Stands result [] [] }
        ensures held { HeldIn result.form result.rest }
    {
        CaptureFeed {
            alloc,
            buffer: FrontBuffer::new(alloc),
            form: None,
            place: 0,
            failed: false,
        }
    }

    /// The form; `None` exactly where no file header was accepted.
    pub fn form(&self) -> Option<Form>
        ensures { result ≡ self.now.form }
    {
        self.form
    }

    /// How many bytes of the capture are used up.
    pub fn place(&self) -> u64
        ensures value { result ≡ self.now.place }
        ensures range { self.now.place + length self.now.rest < 2 ^ 64 }
    {
        self.place
    }

    /// How many bytes are kept.
    pub fn held(&self) -> usize
        ensures { result ≡ length self.now.rest }
    {
        self.buffer.rest().len()
    }

    /// Makes the room at least so long. What was lent is given up. Where there is no memory, nothing else changes.
    pub fn make_room(&mut self, at_least: usize) -> Result<(), OutOfMemory>
        requires { at_least < 2 ^ 62 }
        ensures form { self.new.form ≡ self.old.form }
        ensures rest { self.new.rest ≡ self.old.rest }
        ensures place { self.new.place ≡ self.old.place }
        ensures failed { self.new.failed ≡ self.old.failed }
        ensures room { OnOk result (at_least ≤ length self.new.room) }
        ensures history { (taken : List ℕ) (given : List Frame) → Stands self.old taken given → Stands self.new taken given }
    {
        self.buffer.make_room(at_least)
    }

    /// The room, for the next bytes of the capture to be read into.
    pub fn room(&mut self) -> &mut [u8]
        ensures* writes_back { sem 𝓛 (LendsRoom self.entry result) }
        ensures value { result.now ≡ self.old.room }
    {
        self.buffer.room()
    }

    /// The first bytes of the room are the next bytes of the capture.
    pub fn filled(&mut self, count: usize)
        requires there { count ≤ length self.old.room }
        requires few { self.old.place + length self.old.rest + count < 2 ^ 64 }
        ensures form { self.new.form ≡ self.old.form }
        ensures rest { self.new.rest ≡ self.old.rest ++ take count self.old.room }
        ensures place { self.new.place ≡ self.old.place }
        ensures lent { self.new.lent ≡ self.old.lent }
        ensures failed { self.new.failed ≡ self.old.failed }
        ensures history { (taken : List ℕ) (given : List Frame) → Stands self.old taken given
            → Stands self.new (taken ++ take count self.old.room) given }
        ensures refused { (t : Told) → RefusedAt self.old t → RefusedAt self.new t }
    {
        self.buffer.filled(count);
    }

    /// Takes the next piece of the capture. Where there is no memory for it, the feed has failed.
    pub fn push(&mut self, piece: &[u8]) -> Result<(), OutOfMemory>
        requires { self.old.place + length self.old.rest + length piece.now < 2 ^ 64 }
        ensures form { self.new.form ≡ self.old.form }
        ensures place { self.new.place ≡ self.old.place }
        ensures rest { OnOk result (self.new.rest ≡ self.old.rest ++ piece.now) }
        ensures err { OnErr result (self.new.failed ≡ true) }
        ensures failed { self.old.failed ≡ true → OnOk result ⊥ }
        ensures history { (taken : List ℕ) (given : List Frame) → Stands self.old taken given → OnOk result (Stands self.new (taken ++ piece.now) given) }
        ensures refused { (t : Told) → RefusedAt self.old t → OnOk result (RefusedAt self.new t) }
    {
        if self.failed {
            return Err(OutOfMemory);
        }
        match self.buffer.push_all(piece) {
            Ok(()) => Ok(()),
            Err(fault) => {
                self.failed = true;
                Err(fault)
            }
        }
    }

    /// The packet that `next_packet` gave last, as it stands in the file: its head's 16 bytes and the frame's.
    pub fn packet(&self) -> &[u8]
        ensures { result.now ≡ self.now.lent }
    {
        self.buffer.passed()
    }

    /// Uses up the file header, where it was not yet and is whole, and tells the form.
    pub fn begin(&mut self) -> Result<Option<Form>, Refusal>
        ensures first { self.old.form ≡ None → BeginsAt None self.old self.new result }
        ensures again { IfSome self.old.form (λ f. (result ≡ Ok (Some f)) × (self.new ≡ self.old)) }
        ensures history { (taken : List ℕ) (given : List Frame) → Stands self.old taken given → Begin result self.new taken given }
        ensures form { IfOk result (λ f. IsSome f → self.new.form ≡ f) }
        ensures count { self.new.place + length self.new.rest ≡ self.old.place + length self.old.rest }
        ensures shorter { length self.new.rest ≤ length self.old.rest }
        ensures failed { self.new.failed ≡ self.old.failed }
    {
        if let Some(form) = self.form {
            return Ok(Some(form));
        }
        match head_step(self.buffer.rest()) {
            HeadStep::Wait => Ok(None),
            HeadStep::Refused(at, reason) => Err(Refusal {
                place: self.place + at,
                reason,
            }),
            HeadStep::Whole(form) => {
                self.buffer.pass(24);
                self.place += 24;
                self.form = Some(form);
                Ok(Some(form))
            }
        }
    }

    /// The next packet, behind the file header.
    fn take_packet(&mut self, form: Form) -> Result<Option<PacketHead>, Refusal>
        requires begun { self.old.form ≡ Some form }
        ensures next { NextIn form self.old self.new result }
        ensures lent { IfOk result (λ h. IsSome h → 16 ≤ length self.new.lent) }
        ensures exact { ExactIn (Lends self.new result) (IsNotYet result) (Refuses result) form self.old.rest self.old.place }
        ensures history { (taken : List ℕ) (given : List Frame) → Stands self.old taken given → NextLent result self.new taken given }
        ensures count { self.new.place + length self.new.rest ≡ self.old.place + length self.old.rest }
        ensures falls { IfOk result (λ h. IsSome h → length self.new.rest < length self.old.rest) }
        ensures held { IfOk result (λ h. IsNone h → length self.new.rest ≤ 262159) }
        ensures form { self.new.form ≡ self.old.form }
        ensures failed { self.new.failed ≡ self.old.failed }
    {
        match packet_step(form, self.buffer.rest()) {
            PacketStep::Wait => Ok(None),
            PacketStep::Refused(at, reason) => Err(Refusal {
                place: self.place + at,
                reason,
            }),
            PacketStep::Whole(head) => {
                let length = 16 + head.captured as usize;
                self.buffer.pass(length);
                self.place += length as u64;
                Ok(Some(head))
            }
        }
    }

    /// The next frame's head; `packet` then lends the frame, until the next call. `None` is "not yet". It takes no memory.
    ///
    /// A refusal is told as soon as its field is there, with its place in the file, and again from then on.
    pub fn next_packet(&mut self) -> Result<Option<PacketHead>, Refusal>
        ensures history { (taken : List ℕ) (given : List Frame) → Stands self.old taken given → NextLent result self.new taken given }
        ensures exact { Exact self.old self.new result }
        ensures refused { IfErr result (λ t. RefusedAt self.new t) }
        ensures again { (t : Told) → RefusedAt self.old t → result ≡ Err t }
        ensures count { self.new.place + length self.new.rest ≡ self.old.place + length self.old.rest }
        ensures falls { IfOk result (λ h. IsSome h → length self.new.rest < length self.old.rest) }
        ensures held { IfOk result (λ h. IsNone h → length self.new.rest ≤ 262159) }
        ensures form { IfSome self.old.form (λ f. self.new.form ≡ Some f) }
        ensures lent { IfOk result (λ h. IsSome h → 16 ≤ length self.new.lent) }
        ensures gives { IfSome self.old.form (λ f. IfOk result (λ h. IfSome h (λ head. self.new.lent ≡ packet f (lent_frame head self.new)))) }
        ensures failed { self.new.failed ≡ self.old.failed }
    {
        match self.begin() {
            Ok(Some(form)) => self.take_packet(form),
            Ok(None) => Ok(None),
            Err(refusal) => Err(refusal),
        }
    }

    /// The next frame, with bytes of its own; `None` is "not yet". Where there is no memory, the feed has failed.
    ///
    /// A refusal is told as soon as its field is there, with its place in the file, and again from then on; want of memory too.
    pub fn next(&mut self) -> Result<Option<Captured>, CaptureFault>
        ensures history { (taken : List ℕ) (given : List Frame) → Stands self.old taken given → Next result self.new taken given }
        ensures exact { self.old.failed ≡ false → ExactOwn self.old result }
        ensures failed { self.old.failed ≡ true → result ≡ Err faults.OutOfMemory }
        ensures refused { IfErr result (λ fault. IsStop self.new fault) }
        ensures again { (t : Told) → self.old.failed ≡ false → RefusedAt self.old t → result ≡ Err (faults.Bad t.place t.reason) }
        ensures count { self.new.place + length self.new.rest ≡ self.old.place + length self.old.rest }
        ensures falls { IfOk result (λ f. IsSome f → length self.new.rest < length self.old.rest) }
        ensures held { IfOk result (λ f. IsNone f → length self.new.rest ≤ 262159) }
    {
        if self.failed {
            return Err(CaptureFault::OutOfMemory);
        }
        match self.next_packet() {
            Ok(Some(head)) => match own_frame(self.alloc, head, self.packet()) {
                Ok(frame) => Ok(Some(frame)),
                Err(_) => {
                    self.failed = true;
                    Err(CaptureFault::OutOfMemory)
                }
            },
            Ok(None) => Ok(None),
            Err(refusal) => Err(CaptureFault::Bad(refusal.place, refusal.reason)),
        }
    }

    /// What stands at the front of the rest and is refused.
    fn refusal(&self) -> Option<Refusal>
        ensures { MatchOption result ((t : Told) → ¬ RefusedAt self.now t) (λ t. RefusedAt self.now t) }
    {
        match self.form {
            None => match head_step(self.buffer.rest()) {
                HeadStep::Wait => None,
                HeadStep::Whole(_) => None,
                HeadStep::Refused(at, reason) => Some(Refusal {
                    place: self.place + at,
                    reason,
                }),
            },
            Some(form) => match packet_step(form, self.buffer.rest()) {
                PacketStep::Wait => None,
                PacketStep::Whole(_) => None,
                PacketStep::Refused(at, reason) => Some(Refusal {
                    place: self.place + at,
                    reason,
                }),
            },
        }
    }

    /// The refusal of a capture that ends here.
    fn short(&self) -> Refusal
        ensures { IsShortAt (self.now.place + length self.now.rest) result }
    {
        Refusal {
            place: self.place + self.buffer.rest().len() as u64,
            reason: CaptureReason::Short,
        }
    }

    /// What is missing where the capture ends here and nothing is refused: the end of the header or of a packet.
    fn missing(&self) -> Option<Refusal>
        ensures history { (taken : List ℕ) (given : List Frame) → Stands self.now taken given → HeldIn self.now.form self.now.rest
            → Reads taken self.now.form given result }
    {
        if self.form.is_none() {
            return Some(self.short());
        }
        if self.buffer.rest().is_empty() {
            return None;
        }
        Some(self.short())
    }

    /// Why the capture is none where it ends here: what is refused, or what is missing.
    fn stop(&self) -> Option<Refusal>
        ensures history { (taken : List ℕ) (given : List Frame) → Stands self.now taken given → IsQuiet self.now
            → Reads taken self.now.form given result }
    {
        match self.refusal() {
            Some(refusal) => Some(refusal),
            None => self.missing(),
        }
    }

    /// Whether the capture is whole where it ends here, once `next` has answered `None` or a fault: then the frames given are
    /// all of it. After a fault it answers that fault.
    pub fn finish(&self) -> Result<(), CaptureFault>
        ensures history { (taken : List ℕ) (given : List Frame) → Stands self.now taken given → IsQuiet self.now
            → Finishes result taken self.now.form given }
        ensures failed { (result ≡ Err faults.OutOfMemory) ↔ (self.now.failed ≡ true) }
    {
        if self.failed {
            return Err(CaptureFault::OutOfMemory);
        }
        match self.stop() {
            Some(refusal) => Err(CaptureFault::Bad(refusal.place, refusal.reason)),
            None => Ok(()),
        }
    }
}
