ghost use Rattle.std.specs.Prelude.{◌≡◌, ◌≤◌, ◌+◌, ◌^◌, ◌<◌, [], ◌++◌, length, take, drop, OnOk, OnErr};
ghost use Rattle.std.specs.Borrow.{sem};
ghost use Rattle.wire_base.specs.Runs.{Runs};
ghost use Rattle.wire_base.specs.Lending.{LendsRoom};

use crate::faults::OutOfMemory;
use std::alloc::Global;
use std::marker::Model;

/// Bytes that come in at the end and are used up at the front.
#[derive(Debug, Drop)]
pub struct FrontBuffer {
    held: Vec<u8>,
    /// Where the bytes that were passed last begin.
    passed: usize,
    /// Where the rest begins.
    start: usize,
    /// Where the rest ends and the room begins.
    end: usize,
}

impl Model for FrontBuffer {
    ghost use Rattle.std.specs.Prelude.{◌≤◌, ◌<◌, ◌^◌, length, take, drop};
    ghost use Rattle.wire_base.specs.Runs.{Runs, InOrder};

    ghost Value = { Runs };

    ghost view = { λ b. record {
      passed = drop b.passed (take b.start b.held.items);
      rest = drop b.start (take b.end b.held.items);
      room = drop b.end b.held.items;
    } };

    ghost invariant = { λ b. InOrder b.passed b.start b.end (length b.held.items) };
}

impl FrontBuffer {
    /// A buffer that holds nothing and has no room.
    pub fn new(alloc: Global) -> FrontBuffer
        ensures { result ≡ record { passed = []; rest = []; room = [] } }
    {
        FrontBuffer {
            held: Vec::new(alloc),
            passed: 0,
            start: 0,
            end: 0,
        }
    }

    /// The bytes that are not used up.
    pub fn rest(&self) -> &[u8]
        ensures { result.now ≡ self.now.rest }
    {
        &self.held[self.start..self.end]
    }

    /// The bytes that were passed last.
    pub fn passed(&self) -> &[u8]
        ensures { result.now ≡ self.now.passed }
    {
        &self.held[self.passed..self.start]
    }

    /// Uses up the first bytes of the rest.
    pub fn pass(&mut self, count: usize)
        requires { count ≤ length self.old.rest }
        ensures passed { self.new.passed ≡ take count self.old.rest }
        ensures rest { self.new.rest ≡ drop count self.old.rest }
        ensures len { length self.new.rest + count ≡ length self.old.rest }
        ensures room { self.new.room ≡ self.old.room }
    {
        self.passed = self.start;
        self.start += count;
    }

    /// The room, to be written into.
    pub fn room(&mut self) -> &mut [u8]
        ensures* writes_back { sem 𝓛 (LendsRoom self.entry result) }
        ensures value { result.now ≡ self.old.room }
    {
        self.held.slice_mut(self.end..)
    }

    /// The first bytes of the room join the rest.
    pub fn filled(&mut self, count: usize)
        requires { count ≤ length self.old.room }
        ensures passed { self.new.passed ≡ self.old.passed }
        ensures rest { self.new.rest ≡ self.old.rest ++ take count self.old.room }
        ensures room { self.new.room ≡ drop count self.old.room }
    {
        self.end += count;
    }

    /// Moves the rest to the front where at least as many bytes stand before it, so that each byte is moved at most
    /// as often as one is used up.
    fn move_rest(&mut self)
        ensures rest { self.new.rest ≡ self.old.rest }
        ensures room { length self.old.room ≤ length self.new.room }
    {
        self.passed = self.start;
        let kept = self.end - self.start;
        if kept > self.start {
            return;
        }
        self.held.copy_within(self.start..self.end, 0);
        self.passed = 0;
        self.start = 0;
        self.end = kept;
    }

    /// Grows the room to at least so many bytes.
    fn grow_room(&mut self, at_least: usize) -> Result<(), OutOfMemory>
        requires { at_least < 2 ^ 62 }
        ensures rest { self.new.rest ≡ self.old.rest }
        ensures room { OnOk result (at_least ≤ length self.new.room) }
    {
        self.held.resize(self.end + at_least, 0)?;
        Ok(())
    }

    /// Makes the room at least so long. What was passed is given up. Where there is no memory, the rest is what it was.
    pub fn make_room(&mut self, at_least: usize) -> Result<(), OutOfMemory>
        requires { at_least < 2 ^ 62 }
        ensures rest { self.new.rest ≡ self.old.rest }
        ensures room { OnOk result (at_least ≤ length self.new.room) }
    {
        if self.held.len() - self.end >= at_least {
            return Ok(());
        }
        self.move_rest();
        if self.held.len() - self.end >= at_least {
            return Ok(());
        }
        self.grow_room(at_least)
    }

    /// Takes a piece in behind the rest. What was passed is given up. Where there is no memory, the rest is what it was.
    pub fn push_all(&mut self, piece: &[u8]) -> Result<(), OutOfMemory>
        ensures ok { OnOk result (self.new.rest ≡ self.old.rest ++ piece.now) }
        ensures err { OnErr result (self.new.rest ≡ self.old.rest) }
    {
        self.move_rest();
        self.held.truncate(self.end);
        self.held.extend_from_slice(piece)?;
        self.end = self.held.len();
        Ok(())
    }
}
