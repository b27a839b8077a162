ghost use Rattle.std.specs.Prelude.{◌≡◌, ◌≤◌, ◌<◌, ◌+◌, ◌↔◌, [], ◌++◌, length, take, drop, IsErr, IfOk, OnOk, OnErr};
ghost use Rattle.std.specs.Borrow.{sem};
ghost use Rattle.wire_base.specs.Lending.{LendsRoomed};
ghost use Rattle.wire_base.specs.Rooms.{Roomed};

use crate::faults::{Full, OutOfMemory};
use std::alloc::Global;
use std::marker::Model;

/// Bytes in a room that is made once: nothing behind `with_room` takes memory.
#[derive(Debug, Drop)]
pub struct RoomBuffer {
    held: Vec<u8>,
    room: usize,
}

impl Model for RoomBuffer {
    ghost use Rattle.std.specs.Prelude.{◌≤◌, length};
    ghost use Rattle.std.specs.Vec.{vec_capacity};
    ghost use Rattle.wire_base.specs.Rooms.{Roomed};

    ghost Value = { Roomed };

    ghost view = { λ b. record { room = b.room; bytes = b.held.items } };

    ghost invariant = { λ b. (b.room ≤ vec_capacity b.held) × (length b.held.items ≤ b.room) };
}

impl RoomBuffer {
    /// No bytes, with room for so many.
    pub fn with_room(alloc: Global, room: usize) -> Result<RoomBuffer, OutOfMemory>
        ensures { IfOk result (λ buffer. buffer ≡ record { room = room; bytes = [] }) }
    {
        let held = Vec::with_capacity(alloc, room)?;
        Ok(RoomBuffer { held, room })
    }

    /// The most bytes that it can hold.
    pub fn room(&self) -> usize
        ensures value { result ≡ self.now.room }
        ensures fits { length self.now.bytes ≤ result }
    {
        self.room
    }

    /// The bytes.
    pub fn as_slice(&self) -> &[u8]
        ensures { result.now ≡ self.now.bytes }
    {
        self.held.as_slice()
    }

    /// The bytes, for writing; a byte can be replaced, and none added.
    pub fn as_mut_slice(&mut self) -> &mut [u8]
        ensures* writes_back { sem 𝓛 (LendsRoomed self.entry result) }
        ensures value { result.now ≡ self.old.bytes }
    {
        self.held.as_mut_slice()
    }

    /// Appends bytes.
    pub fn push_all(&mut self, more: &[u8]) -> Result<(), Full>
        ensures full { IsErr result ↔ (self.old.room < length self.old.bytes + length more.now) }
        ensures ok { OnOk result (self.new ≡ record { room = self.old.room; bytes = self.old.bytes ++ more.now }) }
        ensures err { OnErr result (self.new ≡ self.old) }
    {
        if more.len() > self.room - self.held.len() {
            return Err(Full);
        }
        let Ok(()) = self.held.extend_from_slice(more) else {
            return Err(Full);
        };
        Ok(())
    }

    /// Puts bytes in place of those that were there.
    pub fn fill(&mut self, bytes: &[u8]) -> Result<(), Full>
        ensures full { IsErr result ↔ (self.old.room < length bytes.now) }
        ensures ok { OnOk result (self.new ≡ record { room = self.old.room; bytes = bytes.now }) }
        ensures err { OnErr result (self.new ≡ self.old) }
    {
        if bytes.len() > self.room {
            return Err(Full);
        }
        self.held.clear();
        self.push_all(bytes)
    }

    /// Keeps the first bytes, so many or as many as there are.
    pub fn truncate(&mut self, kept: usize)
        ensures { self.new ≡ record { room = self.old.room; bytes = take kept self.old.bytes } }
    {
        self.held.truncate(kept);
    }

    /// Drops the first `count` bytes. Those behind are moved to the front.
    pub fn cut_front(&mut self, count: usize)
        requires { count ≤ length self.old.bytes }
        ensures { self.new ≡ record { room = self.old.room; bytes = drop count self.old.bytes } }
    {
        let kept = self.held.len() - count;
        self.held.copy_within(count.., 0);
        self.held.truncate(kept);
    }

    /// Drops all bytes.
    pub fn clear(&mut self)
        ensures { self.new ≡ record { room = self.old.room; bytes = [] } }
    {
        self.held.clear();
    }
}
