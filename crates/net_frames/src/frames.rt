ghost use Rattle.std.specs.Prelude.{◌≡◌, ◌<◌, ◌≤◌, ◌↔◌, [], length, IsOk, IsErr, IfOk, OnOk, OnErr, IsTrue, not, false};
ghost use Rattle.net_frames.specs.Contents.{fields_of};
ghost use Rattle.net_frames.specs.Edits.{with_bytes, marked, readdressed, expires, lowered, untagged, tagged, IsFullFor};

use crate::contents::{Fields, Side, read_fields};
use crate::edits::{insert_tag, lower, mark, readdress};
use crate::layouts::is_tagged;
use std::alloc::Global;
use std::marker::Model;
use wire_base::{Fixed, Full, OutOfMemory};

/// The most bytes of a frame that are captured.
const CAPTURE_LIMIT: usize = 262_144;

/// A captured frame, in a buffer that is made once.
#[derive(Debug, Drop)]
pub struct Frame {
    room: u32,
    buffer: Vec<u8>,
    original: u32,
}

impl Model for Frame {
    ghost use Rattle.std.specs.Prelude.{◌≤◌};
    ghost use Rattle.std.specs.Vec.{vec_capacity};
    ghost use Rattle.net_frames.specs.Captured.{Captured, IsFrame};

    ghost Value = { Captured };

    ghost view = { λ f. record { room = f.room; bytes = f.buffer.items; original = f.original } };

    ghost invariant = { λ f. (f.room ≤ vec_capacity f.buffer) × IsFrame (record { room = f.room; bytes = f.buffer.items; original = f.original }) };
}

impl Frame {
    ghost use Rattle.net_frames.specs.Captured.{IsFrame};

    /// An empty frame with room for so many captured bytes.
    pub fn with_room(alloc: Global, room: u32) -> Result<Frame, OutOfMemory>
        ensures { IfOk result (λ frame. frame ≡ record { room = room; bytes = []; original = 0 }) }
    {
        let buffer = Vec::with_capacity(alloc, room as usize)?;
        Ok(Frame {
            room,
            buffer,
            original: 0,
        })
    }

    /// Puts in the captured bytes of a frame and its length on the wire, in place of what was there.
    pub fn fill(&mut self, bytes: &[u8], original: u32) -> Result<(), Full>
        requires captured { length bytes.now ≤ original }
        requires limited { length bytes.now ≤ 262144 }
        requires short { original ≤ 2147483647 }
        ensures full { IsErr result ↔ (self.old.room < length bytes.now) }
        ensures ok { OnOk result (self.new ≡ record { room = self.old.room; bytes = bytes.now; original = original }) }
        ensures err { OnErr result (self.new ≡ self.old) }
    {
        if bytes.len() > self.room as usize {
            return Err(Full);
        }
        self.buffer.clear();
        let Ok(()) = self.buffer.extend_from_slice(bytes) else {
            return Err(Full);
        };
        self.original = original;
        Ok(())
    }

    /// The captured bytes.
    pub fn bytes(&self) -> &[u8]
        ensures value { result.now ≡ self.now.bytes }
        ensures frame { IsFrame self.now }
    {
        self.buffer.as_slice()
    }

    /// The length on the wire.
    pub fn original(&self) -> u32
        ensures value { result ≡ self.now.original }
        ensures frame { IsFrame self.now }
    {
        self.original
    }

    /// What the captured bytes say.
    pub fn fields(&self) -> Fields
        ensures { result ≡ fields_of self.now.bytes }
    {
        read_fields(&self.buffer)
    }
}

/// Sets the DSCP, the upper 6 bits of IPv4's TOS byte, with the header checksum, or of IPv6's
/// traffic class (RFC 2474, section 3). A frame with neither header stays.
pub fn set_dscp(frame: &mut Frame, dscp: u8)
    requires { dscp < 64 }
    ensures { frame.new ≡ with_bytes frame.old (marked frame.old.bytes dscp) }
{
    mark(&mut frame.buffer, dscp);
}

/// Replaces IPv4's address of one side, with the header checksum and the checksum of TCP or UDP. A
/// frame without IPv4 stays.
pub fn set_ipv4_address(frame: &mut Frame, side: Side, to: Fixed<4>)
    ensures { frame.new ≡ with_bytes frame.old (readdressed frame.old.bytes side to) }
{
    readdress(&mut frame.buffer, side, to.bytes());
}

/// Lowers IPv4's TTL, with the header checksum, or IPv6's hop limit by 1. False, with the frame
/// unchanged, exactly where the limit is 0 or 1. A frame with neither header stays.
pub fn lower_hop_limit(frame: &mut Frame) -> bool
    ensures expired { result ≡ not (expires frame.old.bytes) }
    ensures lowered { IsTrue result → frame.new ≡ with_bytes frame.old (lowered frame.old.bytes) }
    ensures unchanged { result ≡ false → frame.new ≡ frame.old }
{
    lower(&mut frame.buffer)
}

/// Takes the first tag out, if there is one; both lengths fall by 4.
pub fn pop_vlan(frame: &mut Frame)
    ensures { frame.new ≡ untagged frame.old }
{
    if !is_tagged(&frame.buffer, 12) {
        return;
    }
    let kept = frame.buffer.len() - 4;
    frame.buffer.copy_within(16.., 12);
    frame.buffer.truncate(kept);
    frame.original -= 4;
}

/// Puts a tag `81 00` with this VLAN and priority 0 at byte 12; both lengths rise by 4. A frame with
/// fewer than 12 captured bytes stays.
#[tactic(auto, using(crate::proofs::TagLemmas::tag_in_room))]
pub fn push_vlan(frame: &mut Frame, vid: u16) -> Result<(), Full>
    requires { vid < 4096 }
    ensures full { IsErr result ↔ IsFullFor frame.old }
    ensures ok { OnOk result (frame.new ≡ tagged frame.old vid) }
    ensures err { OnErr result (frame.new ≡ frame.old) }
{
    let count = frame.buffer.len();
    if count < 12 {
        return Ok(());
    }
    if count + 4 > frame.room as usize || count + 4 > CAPTURE_LIMIT {
        return Err(Full);
    }
    let Ok(()) = frame.buffer.extend_from_slice(&[0; 4]) else {
        return Err(Full);
    };
    insert_tag(&mut frame.buffer, vid);
    frame.original += 4;
    Ok(())
}
