use control_files::{ControlFault, ControlFeed, SegmentHead};
use std::alloc::{AllocError, Global};
use wire_base::{List, OutOfMemory};

/// More segments than a row has.
const MOST_SEGMENTS: u32 = 1_000;

/// The fault of a list as that of a text.
pub fn memory_fault(_fault: OutOfMemory) -> AllocError {
    AllocError
}

/// What a feed has given.
#[derive(Debug, Drop)]
pub struct Reading {
    pub count: u32,
    pub segments: String,
    feed: ControlFeed,
    alloc: Global,
}

impl Reading {
    pub fn new(alloc: Global, peers: &List<(u16, u32)>) -> Result<Reading, AllocError> {
        Ok(Reading {
            count: 0,
            segments: String::new(alloc),
            feed: ControlFeed::new(alloc, peers).map_err(memory_fault)?,
            alloc,
        })
    }

    /// Pushes a piece, where so many bytes can be counted.
    fn push(&mut self, piece: &[u8]) -> bool {
        let taken = self.feed.place().checked_add(self.feed.held() as u64);
        if taken
            .and_then(|n| n.checked_add(piece.len() as u64))
            .is_none()
        {
            return false;
        }
        self.feed.push(piece).is_ok()
    }

    fn keep(&mut self, text: &str) -> Result<(), AllocError> {
        self.count = self.count.saturating_add(1);
        self.segments.push_str(text)
    }

    /// Takes a piece, and each segment that is then whole, with bytes of its own.
    pub fn take(&mut self, piece: &[u8]) -> Result<(), AllocError> {
        if !self.push(piece) {
            return Ok(());
        }
        for _ in 0..MOST_SEGMENTS {
            let Ok(Some(segment)) = self.feed.next() else {
                return Ok(());
            };
            let head = SegmentHead {
                kind: segment.kind,
                peer: segment.peer,
                moment: segment.moment,
                position: segment.position,
                length: 0,
            };
            let text = shown(self.alloc, head, segment.bytes.as_slice())?;
            self.keep(text.as_str())?;
        }
        Ok(())
    }

    /// The same, with each segment lent.
    pub fn take_lent(&mut self, piece: &[u8]) -> Result<(), AllocError> {
        if !self.push(piece) {
            return Ok(());
        }
        for _ in 0..MOST_SEGMENTS {
            let Ok(Some(head)) = self.feed.next_segment() else {
                return Ok(());
            };
            let bytes = self.feed.segment().get(23..).unwrap_or(&[]);
            let text = shown(self.alloc, head, bytes)?;
            self.keep(text.as_str())?;
        }
        Ok(())
    }

    /// How the bytes end.
    pub fn end(&self) -> Result<String, AllocError> {
        match self.feed.finish() {
            Ok(()) => format!(in self.alloc; "end"),
            Err(ControlFault::Bad(place, reason)) => format!(in self.alloc; "{place} {reason:?}"),
            Err(ControlFault::OutOfMemory) => format!(in self.alloc; "memory"),
        }
    }

    /// All of it as a line.
    pub fn line(&self) -> Result<String, AllocError> {
        let end = self.end()?;
        format!(in self.alloc; "[{}] {end}", self.segments)
    }
}

/// A segment as a text: kind, peer, moment and position, its bytes or, where they are many, their number and sum.
fn shown(alloc: Global, head: SegmentHead, bytes: &[u8]) -> Result<String, AllocError> {
    let content = if bytes.len() > 64 {
        let sum = bytes
            .iter()
            .fold(0u32, |sum, byte| sum.wrapping_add(u32::from(*byte)));
        format!(in alloc; "{} bytes of sum {sum}", bytes.len())?
    } else {
        hex::encode(alloc, bytes)?
    };
    format!(in alloc;
        "({}:{} {} {} {content})",
        head.kind, head.peer, head.moment, head.position
    )
}
