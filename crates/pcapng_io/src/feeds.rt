ghost use Rattle.std.specs.Prelude.{◌≡◌, ◌≤◌, ◌+◌, length, take, drop, OnOk, OnErr, IfOk};
ghost use Rattle.pcapng_io.specs.Steps.{Applies, AreRead, IsReadBlock, frame_with};

use crate::blocks::{Block, BlockStep, block_step};
use crate::faults::{NgFault, NgReason, NgRefusal};
use crate::frames::{NgFrame, NgHead};
use crate::sections::Section;
use std::alloc::Global;
use std::marker::Model;
use wire_base::{Bytes, FrontBuffer, List, OutOfMemory};

/// What was taken off the front of the rest.
#[derive(Clone, Copy)]
pub(crate) enum Taken {
    /// Nothing, for bytes of the block are still to come.
    Wait,
    /// A block without a frame.
    Skipped,
    /// A block with a frame of this head.
    Frame(NgHead),
}

/// A frame with bytes of its own, from its block.
fn own_frame(alloc: Global, head: NgHead, block: &[u8]) -> Result<NgFrame, OutOfMemory>
    requires { head.from + head.captured ≤ length block.now }
    ensures { IfOk result (λ frame. frame ≡ frame_with head block.now) }
{
    let from = head.from as usize;
    let mut bytes = Bytes::new(alloc);
    bytes.push_all(&block[from..from + head.captured as usize])?;
    Ok(NgFrame {
        seconds: head.seconds,
        nanos: head.nanos,
        original: head.original,
        interface: head.interface,
        ethernet: head.ethernet,
        bytes,
    })
}

/// The section behind a block that says so. Where there is no memory, it is what it was.
fn take_in(alloc: Global, section: &mut Section, said: Block) -> Result<Taken, OutOfMemory>
    requires read { AreRead section.old.interfaces }
    requires said_read { IsReadBlock said }
    ensures ok { IfOk result (λ taken. Applies said section.old section.new taken) }
    ensures err { OnErr result (section.new ≡ section.old) }
    ensures read { AreRead section.new.interfaces }
{
    match said {
        Block::Skipped => Ok(Taken::Skipped),
        Block::Header(big) => {
            *section = Section {
                begun: true,
                big,
                interfaces: List::new(alloc),
            };
            Ok(Taken::Skipped)
        }
        Block::Described(interface) => {
            section.interfaces.push(interface)?;
            Ok(Taken::Skipped)
        }
        Block::Frame(head) => Ok(Taken::Frame(head)),
    }
}

/// A pcapng file that comes in pieces.
///
/// `push` takes a piece and `next` gives a frame with bytes of its own. A caller that reads a file wants no copies: it
/// makes room (`make_room`), reads straight into it (`room`), says how much came (`filled`), and takes each frame as
/// `next_frame` and `block` lend it. Memory is then asked for only where an interface is described.
///
/// Clauses see the bytes that are not used up, how many were used up, and the section behind them. What a feed took and gave
/// is its history (`Stands`). It holds one block, of at most 1,048,576 bytes, and what came behind it.
#[derive(Debug, Drop)]
pub struct NgFeed {
    alloc: Global,
    buffer: FrontBuffer,
    section: Section,
    /// How many bytes of the file are used.
    place: u64,
    /// Whether there was no memory before.
    failed: bool,
}

impl Model for NgFeed {
    ghost use Rattle.std.specs.Prelude.{◌+◌, ◌<◌, ◌^◌, length};
    ghost use Rattle.pcapng_io.specs.Steps.{AreRead};
    ghost use Rattle.pcapng_io.specs.Kept.{Kept};

    ghost Value = { Kept };

    ghost view = { λ f. record { failed = f.failed; section = f.section; lent = f.buffer.passed; rest = f.buffer.rest; room = f.buffer.room; place = f.place } };

    ghost invariant = { λ f. (f.place + length f.buffer.rest < 2 ^ 64) × AreRead f.section.interfaces };
}

impl NgFeed {
    ghost use Rattle.std.specs.Prelude.{◌≡◌, ◌↔◌, ◌≤◌, ◌+◌, ◌^◌, ◌<◌, ℕ, List as Sequence, true, false, None, Some, [], ◌++◌, length, take, drop, OnOk, OnErr, IfOk, IfErr, IfSome, IsSome, IsNone, MatchBool, MatchOption, Ok, Err};
    ghost use Rattle.std.specs.Borrow.{sem};
    ghost use Rattle.pcapng_io.specs.Sections.{start};
    ghost use Rattle.pcapng_io.specs.Refusals.{refused_from};
    ghost use Rattle.pcapng_io.specs.Steps.{AreRead, Whole};
    ghost use Rattle.pcapng_io.specs.Kept.{Kept};
    ghost use Rattle.pcapng_io.specs.Lending.{LendsRoom};
    ghost use Rattle.pcapng_io.specs.Calls.{IsHeld, IsQuiet, IsStop, RefusedAt, TakesBlock, IsProgress};
    ghost use Rattle.pcapng_io.specs.Streams.{Stands, NextLent, Next};
    ghost use Rattle.pcapng_io.specs.Reads.{BeginsNg, Finishes, IsShortAt, Misses, Reads};
    ghost use Rattle.pcapng_io.specs.declared.frames.NgFrame.{NgFrame as Given};
    ghost use Rattle.pcapng_io.specs.declared.faults.NgRefusal.{NgRefusal as Told};
    ghost use Rattle.pcapng_io.specs.declared.faults.NgFault.TheVariants as faults;

    /// A feed that has taken nothing.
    pub fn new(alloc: Global) -> NgFeed
        ensures value { result ≡ record { failed = false; section = start; lent = []; rest = []; room = []; place = 0 } }
        ensures history { Stands result [] [] }
        ensures held { IsHeld result }
    {
        NgFeed {
            alloc,
            buffer: FrontBuffer::new(alloc),
            section: Section {
                begun: false,
                big: false,
                interfaces: List::new(alloc),
            },
            place: 0,
            failed: false,
        }
    }

    /// How many bytes of the file are used up.
    pub fn place(&self) -> u64
        ensures value { result ≡ self.now.place }
        ensures range { self.now.place + length self.now.rest < 2 ^ 64 }
    {
        self.place
    }

    /// How many bytes are kept.
    pub fn held(&self) -> usize
        ensures { result ≡ length self.now.rest }
    {
        self.buffer.rest().len()
    }

    /// Makes the room at least so long. What was lent is given up. Where there is no memory, nothing else changes.
    pub fn make_room(&mut self, at_least: usize) -> Result<(), OutOfMemory>
        requires { at_least < 2 ^ 62 }
        ensures section { self.new.section ≡ self.old.section }
        ensures rest { self.new.rest ≡ self.old.rest }
        ensures place { self.new.place ≡ self.old.place }
        ensures failed { self.new.failed ≡ self.old.failed }
        ensures room { OnOk result (at_least ≤ length self.new.room) }
        ensures history { (taken : Sequence ℕ) (given : Sequence Given) → Stands self.old taken given → Stands self.new taken given }
    {
        self.buffer.make_room(at_least)
    }

    /// The room, for the next bytes of the file to be read into.
    pub fn room(&mut self) -> &mut [u8]
        ensures* writes_back { sem 𝓛 (LendsRoom self.entry result) }
        ensures value { result.now ≡ self.old.room }
    {
        self.buffer.room()
    }

    /// The first bytes of the room are the next bytes of the file.
    pub fn filled(&mut self, count: usize)
        requires there { count ≤ length self.old.room }
        requires few { self.old.place + length self.old.rest + count < 2 ^ 64 }
        ensures section { self.new.section ≡ self.old.section }
        ensures rest { self.new.rest ≡ self.old.rest ++ take count self.old.room }
        ensures place { self.new.place ≡ self.old.place }
        ensures lent { self.new.lent ≡ self.old.lent }
        ensures failed { self.new.failed ≡ self.old.failed }
        ensures history { (taken : Sequence ℕ) (given : Sequence Given) → Stands self.old taken given
            → Stands self.new (taken ++ take count self.old.room) given }
        ensures refused { (t : Told) → RefusedAt self.old t → RefusedAt self.new t }
    {
        self.buffer.filled(count);
    }

    /// Takes the next piece of the file. Where there is no memory for it, the feed has failed.
    pub fn push(&mut self, piece: &[u8]) -> Result<(), OutOfMemory>
        requires { self.old.place + length self.old.rest + length piece.now < 2 ^ 64 }
        ensures section { self.new.section ≡ self.old.section }
        ensures place { self.new.place ≡ self.old.place }
        ensures rest { OnOk result (self.new.rest ≡ self.old.rest ++ piece.now) }
        ensures err { OnErr result (self.new.failed ≡ true) }
        ensures failed { self.old.failed ≡ true → OnOk result ⊥ }
        ensures history { (taken : Sequence ℕ) (given : Sequence Given) → Stands self.old taken given → OnOk result (Stands self.new (taken ++ piece.now) given) }
        ensures refused { (t : Told) → RefusedAt self.old t → OnOk result (RefusedAt self.new t) }
    {
        if self.failed {
            return Err(OutOfMemory);
        }
        match self.buffer.push_all(piece) {
            Ok(()) => Ok(()),
            Err(fault) => {
                self.failed = true;
                Err(fault)
            }
        }
    }

    /// Whether the bytes taken begin with a whole section header of which nothing is refused.
    pub fn begun(&self) -> bool
        ensures history { (taken : Sequence ℕ) (given : Sequence Given) → Stands self.now taken given → MatchBool result (BeginsNg taken) (¬ BeginsNg taken) }
    {
        if self.section.begun {
            return true;
        }
        match block_step(&self.section, self.buffer.rest()) {
            BlockStep::Whole(_, _) => true,
            BlockStep::Wait => false,
            BlockStep::Refused(_, _) => false,
        }
    }

    /// The block that gave the frame of `next_frame` last: the frame's bytes stand in it as its head says.
    pub fn block(&self) -> &[u8]
        ensures { result.now ≡ self.now.lent }
    {
        self.buffer.passed()
    }

    /// Uses up so many bytes.
    fn pass(&mut self, size: usize)
        requires { size ≤ length self.old.rest }
        ensures lent { self.new.lent ≡ take size self.old.rest }
        ensures rest { self.new.rest ≡ drop size self.old.rest }
        ensures place { self.new.place ≡ self.old.place + size }
        ensures section { self.new.section ≡ self.old.section }
        ensures room { self.new.room ≡ self.old.room }
        ensures failed { self.new.failed ≡ self.old.failed }
    {
        self.buffer.pass(size);
        self.place += size as u64;
    }

    /// Uses up a block that stands whole at the front and says so. Where there is no memory, the feed has failed.
    fn use_block(&mut self, size: usize, said: Block) -> Result<Taken, NgFault>
        requires whole { Whole self.old.section self.old.rest size said }
        requires said_read { IsReadBlock said }
        ensures takes { TakesBlock self.old self.new result }
        ensures count { self.new.place + length self.new.rest ≡ self.old.place + length self.old.rest }
        ensures falls { IfOk result (λ t. IsProgress t → length self.new.rest < length self.old.rest) }
        ensures failed { OnOk result (self.new.failed ≡ self.old.failed) }
    {
        match take_in(self.alloc, &mut self.section, said) {
            Ok(taken) => {
                self.pass(size);
                Ok(taken)
            }
            Err(_) => {
                self.failed = true;
                Err(NgFault::OutOfMemory)
            }
        }
    }

    /// Takes the next block.
    fn take_block(&mut self) -> Result<Taken, NgFault>
        ensures takes { TakesBlock self.old self.new result }
        ensures count { self.new.place + length self.new.rest ≡ self.old.place + length self.old.rest }
        ensures falls { IfOk result (λ t. IsProgress t → length self.new.rest < length self.old.rest) }
        ensures held { IfOk result (λ t. (IsProgress t → ⊥) → length self.new.rest ≤ 1048575) }
    {
        match block_step(&self.section, self.buffer.rest()) {
            BlockStep::Wait => Ok(Taken::Wait),
            BlockStep::Refused(at, reason) => Err(NgFault::Bad(self.place + at as u64, reason)),
            BlockStep::Whole(size, said) => self.use_block(size, said),
        }
    }

    /// The next frame's head; `block` then lends its bytes, until the next call. `None` is "not yet". Memory is asked for only
    /// where an interface is described; where there is none, the feed has failed.
    ///
    /// A refusal is told as soon as its field may be judged, with its place in the file, and again from then on.
    pub fn next_frame(&mut self) -> Result<Option<NgHead>, NgFault>
        ensures history { (taken : Sequence ℕ) (given : Sequence Given) → Stands self.old taken given → NextLent result self.new taken given }
        ensures failed { self.old.failed ≡ true → result ≡ Err faults.OutOfMemory }
        ensures refused { IfErr result (λ fault. IsStop self.new fault) }
        ensures again { (t : Told) → self.old.failed ≡ false → RefusedAt self.old t → result ≡ Err (faults.Bad t.place t.reason) }
        ensures count { self.new.place + length self.new.rest ≡ self.old.place + length self.old.rest }
        ensures falls { IfOk result (λ h. IsSome h → length self.new.rest < length self.old.rest) }
        ensures held { IfOk result (λ h. IsNone h → length self.new.rest ≤ 1048575) }
        ensures lent { IfOk result (λ h. IfSome h (λ head. head.from + head.captured ≤ length self.new.lent)) }
    {
        if self.failed {
            return Err(NgFault::OutOfMemory);
        }
        'each: loop {
            match self.take_block() {
                Ok(Taken::Frame(head)) => return Ok(Some(head)),
                Ok(Taken::Skipped) => {}
                Ok(Taken::Wait) => return Ok(None),
                Err(fault) => return Err(fault),
            }
        }
    }

    /// The next frame, with bytes of its own; `None` is "not yet". Where there is no memory, the feed has failed.
    ///
    /// A refusal is told as soon as its field may be judged, with its place in the file, and again from then on; want of memory too.
    pub fn next(&mut self) -> Result<Option<NgFrame>, NgFault>
        ensures history { (taken : Sequence ℕ) (given : Sequence Given) → Stands self.old taken given → Next result self.new taken given }
        ensures failed { self.old.failed ≡ true → result ≡ Err faults.OutOfMemory }
        ensures refused { IfErr result (λ fault. IsStop self.new fault) }
        ensures again { (t : Told) → self.old.failed ≡ false → RefusedAt self.old t → result ≡ Err (faults.Bad t.place t.reason) }
        ensures count { self.new.place + length self.new.rest ≡ self.old.place + length self.old.rest }
        ensures falls { IfOk result (λ f. IsSome f → length self.new.rest < length self.old.rest) }
        ensures held { IfOk result (λ f. IsNone f → length self.new.rest ≤ 1048575) }
    {
        match self.next_frame() {
            Ok(Some(head)) => match own_frame(self.alloc, head, self.block()) {
                Ok(frame) => Ok(Some(frame)),
                Err(_) => {
                    self.failed = true;
                    Err(NgFault::OutOfMemory)
                }
            },
            Ok(None) => Ok(None),
            Err(fault) => Err(fault),
        }
    }

    /// What stands at the front of the rest and is refused.
    fn refusal(&self) -> Option<NgRefusal>
        ensures { result ≡ refused_from self.now.section self.now.place self.now.rest }
    {
        match block_step(&self.section, self.buffer.rest()) {
            BlockStep::Refused(at, reason) => Some(NgRefusal {
                place: self.place + at as u64,
                reason,
            }),
            BlockStep::Wait => None,
            BlockStep::Whole(_, _) => None,
        }
    }

    /// What is missing where the file ends here: the first section header, or the end of a block.
    fn missing(&self) -> Option<NgRefusal>
        ensures { MatchOption result ((self.now.rest ≡ []) × (self.now.section.begun ≡ true)) (λ r. Misses self.now.section self.now.rest × IsShortAt (self.now.place + length self.now.rest) r) }
    {
        let size = self.buffer.rest().len();
        if size == 0 && self.section.begun {
            return None;
        }
        Some(NgRefusal {
            place: self.place + size as u64,
            reason: NgReason::Short,
        })
    }

    /// Why the file is none where it ends here: what is refused, or what is missing.
    fn stop(&self) -> Option<NgRefusal>
        ensures history { (taken : Sequence ℕ) (given : Sequence Given) → Stands self.now taken given → IsQuiet self.now
            → Reads taken given result }
    {
        match self.refusal() {
            Some(refusal) => Some(refusal),
            None => self.missing(),
        }
    }

    /// Whether the file is whole where it ends here, once `next` has answered `None` or a fault: then the frames given are
    /// all of it. After a fault it answers that fault; else `Short` exactly where bytes are held or no section was begun.
    pub fn finish(&self) -> Result<(), NgFault>
        ensures history { (taken : Sequence ℕ) (given : Sequence Given) → Stands self.now taken given → IsQuiet self.now
            → Finishes result taken given }
        ensures failed { (result ≡ Err faults.OutOfMemory) ↔ (self.now.failed ≡ true) }
    {
        if self.failed {
            return Err(NgFault::OutOfMemory);
        }
        match self.stop() {
            Some(refusal) => Err(NgFault::Bad(refusal.place, refusal.reason)),
            None => Ok(()),
        }
    }
}
