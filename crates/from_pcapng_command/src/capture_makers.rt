//! A pcapng file that comes in pieces, as the bytes of a capture.

ghost use Rattle.std.specs.Prelude.{◌≡◌, ◌+◌, ◌≤◌, ◌++◌, length, OnOk};
ghost use Rattle.pcap_io.specs.Captures.{packet};
ghost use Rattle.pcapng_io.specs.Calls.{lent_frame};
ghost use Rattle.from_pcapng_command.specs.FromPcapngCommand.{as_captured, is_chosen as is_chosen_frame, made_form as made_form_of};

use commands::Status;
use frame_streams::Converter;
use pcap_io::{Form, capture_head, packet_head};
use pcapng_io::{NgFault, NgFeed, NgHead};
use std::alloc::Global;
use wire_base::OutOfMemory;

/// The form of the capture that is made: nanoseconds, the lowest byte first.
fn made_form() -> Form
    ensures { result ≡ made_form_of }
{
    Form {
        nano: true,
        big: false,
    }
}

/// Whether a frame of this head is written: it is of an Ethernet, and of the interface, or `None` for every one.
fn is_chosen(feed: &NgFeed, interface: Option<u32>, head: NgHead) -> bool
    ensures { result ≡ is_chosen_frame interface (lent_frame head feed.now) }
{
    if !head.ethernet {
        return false;
    }
    match interface {
        None => true,
        Some(number) => head.interface == number,
    }
}

/// Appends the packet of the frame that the feed lent.
fn put_packet(feed: &NgFeed, head: NgHead, buffer: &mut Vec<u8>) -> Result<(), OutOfMemory>
    requires { head.from + head.captured ≤ length feed.now.lent }
    ensures { OnOk result (buffer.new.items ≡ buffer.old.items ++ packet made_form_of (as_captured (lent_frame head feed.now))) }
{
    let from = head.from as usize;
    let bytes = &feed.block()[from..from + head.captured as usize];
    buffer.extend_from_slice(&packet_head(
        made_form(),
        head.seconds,
        head.nanos,
        head.captured,
        head.original,
    ))?;
    buffer.extend_from_slice(bytes)?;
    Ok(())
}

/// The chosen frames of a pcapng file on their way into a capture, and how many frames were chosen and how many not.
#[derive(Drop)]
pub(crate) struct CaptureMaker {
    feed: NgFeed,
    /// The interface whose frames are chosen, or every one.
    interface: Option<u32>,
    /// Whether the file header of the capture was put.
    begun: bool,
    pub(crate) chosen: u64,
    pub(crate) skipped: u64,
}

impl CaptureMaker {
    ghost use Rattle.std.specs.Prelude.{◌≡◌, ℕ, ◌+◌, ◌-◌, ◌<◌, ◌≤◌, ◌^◌, false, List, [], length, MatchBool, OnOk};
    ghost use Rattle.pcapng_io.specs.declared.frames.NgFrame.{NgFrame as Given};
    ghost use Rattle.pcapng_io.specs.Calls.{IsHeld, lent_frame};
    ghost use Rattle.pcapng_io.specs.Reads.{BeginsNg};
    ghost use Rattle.pcapng_io.specs.Streams.{Stands};
    ghost use Rattle.from_pcapng_command.specs.FromPcapngSteps.{PutsFrame, PutsHead, Turns};

    /// Nothing was taken. The frames of the interface are chosen, or of every one.
    pub(crate) fn new(alloc: Global, interface: Option<u32>) -> CaptureMaker
        ensures fresh { Turns result [] [] }
        ensures asked { result.interface ≡ interface }
        ensures held { IsHeld result.feed }
        ensures nothing { result.feed.rest ≡ [] }
        ensures start { result.feed.place ≡ 0 }
    {
        CaptureMaker {
            feed: NgFeed::new(alloc),
            interface,
            begun: false,
            chosen: 0,
            skipped: 0,
        }
    }

    /// Appends the file header of the capture where the pcapng file begins, once.
    fn begin(&mut self, buffer: &mut Vec<u8>) -> Result<(), OutOfMemory>
        ensures feed { self.new.feed ≡ self.old.feed }
        ensures interface { self.new.interface ≡ self.old.interface }
        ensures chosen { self.new.chosen ≡ self.old.chosen }
        ensures skipped { self.new.skipped ≡ self.old.skipped }
        ensures puts { OnOk result (PutsHead self.old.begun self.new.begun buffer.old.items buffer.new.items) }
        ensures begins { (taken : List ℕ) (given : List Given) → Stands self.old.feed taken given
            → OnOk result (self.old.begun ≡ false → MatchBool self.new.begun (BeginsNg taken) (¬ BeginsNg taken)) }
    {
        if self.begun {
            return Ok(());
        }
        if !self.feed.begun() {
            return Ok(());
        }
        buffer.extend_from_slice(&capture_head(made_form()))?;
        self.begun = true;
        Ok(())
    }

    /// Counts the frame that the feed lent, and appends its packet where it is chosen.
    fn put_lent(&mut self, head: NgHead, buffer: &mut Vec<u8>) -> Result<(), OutOfMemory>
        requires lent { head.from + head.captured ≤ length self.old.feed.lent }
        requires few { self.old.chosen + self.old.skipped < 2 ^ 64 - 1 }
        ensures feed { self.new.feed ≡ self.old.feed }
        ensures interface { self.new.interface ≡ self.old.interface }
        ensures begun { self.new.begun ≡ self.old.begun }
        ensures puts { OnOk result (PutsFrame self.old.interface (lent_frame head self.old.feed) self.old self.new buffer.old.items buffer.new.items) }
    {
        if !is_chosen(&self.feed, self.interface, head) {
            self.skipped += 1;
            return Ok(());
        }
        put_packet(&self.feed, head, buffer)?;
        self.chosen += 1;
        Ok(())
    }
}

impl Converter for CaptureMaker {
    ghost use Rattle.std.specs.Prelude.{◌+◌, length};
    ghost use Rattle.from_pcapng_command.specs.FromPcapngCommand.{FromWrites};
    ghost use Rattle.from_pcapng_command.specs.FromPcapngSteps.{IsAtRest, Turns};

    type Said = Option<u32>;

    ghost said = { λ m. m.interface };

    ghost writes = { λ interface input answer made. FromWrites interface input answer made };

    ghost turned = { λ m taken made. Turns m taken made };

    ghost is_quiet = { λ m. IsAtRest m };

    ghost count = { λ m. m.feed.place + length m.feed.rest };

    ghost unused = { λ m. length m.feed.rest };

    fn taken(&self) -> u64 {
        self.feed.place() + self.feed.held() as u64
    }

    fn push(&mut self, piece: &[u8]) -> Result<(), OutOfMemory> {
        self.feed.push(piece)
    }

    fn next(&mut self, buffer: &mut Vec<u8>) -> Result<bool, Status> {
        match self.feed.next_frame() {
            Ok(Some(head)) => {
                let Ok(()) = self.begin(buffer) else {
                    return Err(Status::Memory);
                };
                match self.put_lent(head, buffer) {
                    Ok(()) => Ok(true),
                    Err(_) => Err(Status::Memory),
                }
            }
            Ok(None) => match self.begin(buffer) {
                Ok(()) => Ok(false),
                Err(_) => Err(Status::Memory),
            },
            Err(NgFault::Bad(place, reason)) => match self.begin(buffer) {
                Ok(()) => Err(Status::Pcapng(place, reason)),
                Err(_) => Err(Status::Memory),
            },
            Err(NgFault::OutOfMemory) => Err(Status::Memory),
        }
    }

    fn finish(&self) -> Status {
        match self.feed.finish() {
            Ok(()) => Status::Ok,
            Err(NgFault::Bad(place, reason)) => Status::Pcapng(place, reason),
            Err(NgFault::OutOfMemory) => Status::Memory,
        }
    }
}
