use crate::forms::form_word;
use pcap_io::{CaptureFault, CaptureFeed, Captured};
use std::alloc::{AllocError, Global};

/// More frames than a row has.
const MOST_FRAMES: u32 = 1_000;

/// What a feed has given.
#[derive(Debug, Drop)]
pub struct Reading {
    pub count: u32,
    pub frames: String,
    feed: CaptureFeed,
    alloc: Global,
}

impl Reading {
    pub fn new(alloc: Global) -> Reading {
        Reading {
            count: 0,
            frames: String::new(alloc),
            feed: CaptureFeed::new(alloc),
            alloc,
        }
    }

    /// Takes a piece, and each frame that is then whole.
    pub fn take(&mut self, piece: &[u8]) -> Result<(), AllocError> {
        let taken = self.feed.place().checked_add(self.feed.held() as u64);
        if taken
            .and_then(|n| n.checked_add(piece.len() as u64))
            .is_none()
        {
            return Ok(());
        }
        if self.feed.push(piece).is_err() {
            return Ok(());
        }
        for _ in 0..MOST_FRAMES {
            let Ok(Some(frame)) = self.feed.next() else {
                return Ok(());
            };
            self.count = self.count.saturating_add(1);
            self.frames.push_str(shown(self.alloc, &frame)?.as_str())?;
        }
        Ok(())
    }

    /// The word of the form, or a dash.
    pub fn form(&self) -> &'static str {
        match self.feed.form() {
            Some(form) => form_word(form),
            None => "-",
        }
    }

    /// How the bytes end.
    pub fn end(&self) -> Result<String, AllocError> {
        match self.feed.finish() {
            Ok(()) => format!(in self.alloc; "end"),
            Err(CaptureFault::Bad(place, reason)) => format!(in self.alloc; "{place} {reason:?}"),
            Err(CaptureFault::OutOfMemory) => format!(in self.alloc; "memory"),
        }
    }

    /// All of it as a line.
    pub fn line(&self) -> Result<String, AllocError> {
        let end = self.end()?;
        format!(in self.alloc; "{} [{}] {end}", self.form(), self.frames)
    }
}

/// A frame as a text: its times, its length on the wire, its bytes or, where they are many, their number and sum.
fn shown(alloc: Global, frame: &Captured) -> Result<String, AllocError> {
    let bytes = frame.bytes.as_slice();
    let content = if bytes.len() > 64 {
        let sum = bytes
            .iter()
            .fold(0u32, |sum, byte| sum.wrapping_add(u32::from(*byte)));
        format!(in alloc; "{} bytes of sum {sum}", bytes.len())?
    } else {
        hex::encode(alloc, bytes)?
    };
    format!(in alloc;
        "({}.{} {} {content})",
        frame.seconds, frame.fraction, frame.original
    )
}
