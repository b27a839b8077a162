//! A capture that comes in pieces, as the bytes of a pcapng file.

ghost use Rattle.std.specs.Prelude.{◌≡◌, ℕ, ◌+◌, ◌^◌, ◌<◌, ◌≤◌, true, List, ◌++◌, length, None, Some, IfErr, IfOk, OnOk};
ghost use Rattle.pcap_io.specs.Calls.{HeldIn, lent_frame};
ghost use Rattle.pcap_io.specs.Captures.{IsWithinLimits, packet};
ghost use Rattle.pcapng_io.specs.Written.{block_end_of, block_head_of, ng_head_of, ticks_of};
ghost use Rattle.frame_streams.specs.Turning.{IsStop, NextSays};
ghost use Rattle.to_pcapng_command.specs.ToPcapngCommand.{ToWrites};
ghost use Rattle.to_pcapng_command.specs.ToPcapngSteps.{PutsLent, Turns};

use commands::{CaptureReason, Status};
use frame_streams::Converter;
use pcap_io::{CaptureFault, CaptureFeed, Form, PacketHead};
use pcapng_io::{block_end, block_head, has_time, ng_head};
use std::alloc::Global;
use wire_base::OutOfMemory;

/// How far the fraction of a packet stands behind its first byte.
const FRACTION_AT: u64 = 4;

/// Appends what stands before the packets.
fn put_head(form: Form, buffer: &mut Vec<u8>) -> Result<(), OutOfMemory>
    ensures { OnOk result (buffer.new.items ≡ buffer.old.items ++ ng_head_of form) }
{
    buffer.extend_from_slice(&ng_head(form))?;
    Ok(())
}

/// Appends the packet of a frame: 28 bytes, its own, and those behind them.
fn put_frame(
    form: Form,
    head: PacketHead,
    bytes: &[u8],
    buffer: &mut Vec<u8>,
) -> Result<(), OutOfMemory>
    requires captured { head.captured ≡ length bytes.now }
    requires few { length bytes.now ≤ 262144 }
    ensures { OnOk result (buffer.new.items ≡ buffer.old.items
        ++ (block_head_of (ticks_of form head.seconds head.fraction) (length bytes.now) head.original ++ (bytes.now ++ block_end_of (length bytes.now)))) }
{
    let end = block_end(head.captured);
    buffer.extend_from_slice(&block_head(form, head))?;
    buffer.extend_from_slice(bytes)?;
    buffer.extend_from_slice(&end.cells[end.from..])?;
    Ok(())
}

/// Uses up the file header where it is there, and appends what stands before the packets.
fn begin(feed: &mut CaptureFeed, buffer: &mut Vec<u8>) -> Result<bool, Status>
    requires none { feed.old.form ≡ None }
    ensures history { (taken written : List ℕ) → Turns feed.old taken (written ++ buffer.old.items)
        → NextSays (Turns feed.new taken) (HeldIn feed.new.form feed.new.rest) ToWrites taken (written ++ buffer.new.items) result }
    ensures stops { IfErr result IsStop }
    ensures count { feed.new.place + length feed.new.rest ≡ feed.old.place + length feed.old.rest }
    ensures falls { IfOk result (λ more. more ≡ true → length feed.new.rest < length feed.old.rest) }
{
    let form = match feed.begin() {
        Ok(Some(form)) => form,
        Ok(None) => return Ok(false),
        Err(refusal) => return Err(Status::Capture(refusal.place, refusal.reason)),
    };
    match put_head(form, buffer) {
        Ok(()) => Ok(true),
        Err(_) => Err(Status::Memory),
    }
}

/// Appends the packet of the frame that the feed lent, which began at the place; a frame that is too late is refused at its fraction.
fn put_lent(
    feed: &CaptureFeed,
    form: Form,
    head: PacketHead,
    place: u64,
    buffer: &mut Vec<u8>,
) -> Result<bool, Status>
    requires some { 16 ≤ length feed.now.lent }
    requires lent { feed.now.lent ≡ packet form (lent_frame head feed.now) }
    requires within { IsWithinLimits (lent_frame head feed.now) }
    requires early { place + 4 < 2 ^ 64 }
    ensures { PutsLent form (lent_frame head feed.now) place buffer.old.items buffer.new.items result }
{
    if !has_time(form, head.seconds, head.fraction) {
        return Err(Status::Capture(place + FRACTION_AT, CaptureReason::Time));
    }
    let bytes = &feed.packet()[16..];
    let own = PacketHead {
        seconds: head.seconds,
        fraction: head.fraction,
        captured: bytes.len() as u32,
        original: head.original,
    };
    match put_frame(form, own, bytes, buffer) {
        Ok(()) => Ok(true),
        Err(_) => Err(Status::Memory),
    }
}

/// Appends the packet of the next frame behind the file header.
fn put_next(feed: &mut CaptureFeed, form: Form, buffer: &mut Vec<u8>) -> Result<bool, Status>
    requires begun { feed.old.form ≡ Some form }
    requires stands { (taken written : List ℕ) × Turns feed.old taken written }
    ensures history { (taken written : List ℕ) → Turns feed.old taken (written ++ buffer.old.items)
        → NextSays (Turns feed.new taken) (HeldIn feed.new.form feed.new.rest) ToWrites taken (written ++ buffer.new.items) result }
    ensures stops { IfErr result IsStop }
    ensures count { feed.new.place + length feed.new.rest ≡ feed.old.place + length feed.old.rest }
    ensures falls { IfOk result (λ more. more ≡ true → length feed.new.rest < length feed.old.rest) }
{
    let place = feed.place();
    match feed.next_packet() {
        Ok(Some(head)) => put_lent(feed, form, head, place, buffer),
        Ok(None) => Ok(false),
        Err(refusal) => Err(Status::Capture(refusal.place, refusal.reason)),
    }
}

/// The frames of a capture on their way into a pcapng file.
#[derive(Drop)]
pub(crate) struct NgWriter {
    feed: CaptureFeed,
}

impl NgWriter {
    ghost use Rattle.std.specs.Prelude.{◌≡◌, []};
    ghost use Rattle.pcap_io.specs.Calls.{HeldIn};
    ghost use Rattle.to_pcapng_command.specs.ToPcapngSteps.{Turns};

    /// Nothing was taken.
    pub(crate) fn new(alloc: Global) -> NgWriter
        ensures fresh { Turns result.feed [] [] }
        ensures quiet { HeldIn result.feed.form result.feed.rest }
        ensures nothing { result.feed.rest ≡ [] }
        ensures start { result.feed.place ≡ 0 }
    {
        NgWriter {
            feed: CaptureFeed::new(alloc),
        }
    }
}

impl Converter for NgWriter {
    ghost use Rattle.std.specs.Prelude.{◌+◌, length};
    ghost use Rattle.pcap_io.specs.Calls.{HeldIn};
    ghost use Rattle.to_pcapng_command.specs.ToPcapngCommand.{ToWrites};
    ghost use Rattle.to_pcapng_command.specs.ToPcapngSteps.{Turns};

    type Said = ();

    ghost said = { λ _. tt };

    ghost writes = { λ _ input answer made. ToWrites input answer made };

    ghost turned = { λ w taken made. Turns w.feed taken made };

    ghost is_quiet = { λ w. HeldIn w.feed.form w.feed.rest };

    ghost count = { λ w. w.feed.place + length w.feed.rest };

    ghost unused = { λ w. length w.feed.rest };

    fn taken(&self) -> u64 {
        self.feed.place() + self.feed.held() as u64
    }

    fn push(&mut self, piece: &[u8]) -> Result<(), OutOfMemory> {
        self.feed.push(piece)
    }

    fn next(&mut self, buffer: &mut Vec<u8>) -> Result<bool, Status> {
        match self.feed.form() {
            Some(form) => put_next(&mut self.feed, form, buffer),
            None => begin(&mut self.feed, buffer),
        }
    }

    fn finish(&self) -> Status {
        match self.feed.finish() {
            Ok(()) => Status::Ok,
            Err(CaptureFault::Bad(place, reason)) => Status::Capture(place, reason),
            Err(CaptureFault::OutOfMemory) => Status::Memory,
        }
    }
}
