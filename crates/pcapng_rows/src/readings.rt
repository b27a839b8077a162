use pcapng_io::{NgFault, NgFeed, NgFrame, NgHead};
use std::alloc::{AllocError, Global};

/// More frames than a row has.
const MOST_FRAMES: u32 = 2_000;

/// What a feed has given.
#[derive(Debug, Drop)]
pub struct Reading {
    pub count: u32,
    pub frames: String,
    /// What was told as a refusal on the way.
    told: String,
    feed: NgFeed,
    alloc: Global,
}

/// A fault as a text.
fn fault_text(alloc: Global, fault: NgFault) -> Result<String, AllocError> {
    match fault {
        NgFault::Bad(place, reason) => format!(in alloc; "{place} {reason:?}"),
        NgFault::OutOfMemory => format!(in alloc; "memory"),
    }
}

impl Reading {
    pub fn new(alloc: Global) -> Reading {
        Reading {
            count: 0,
            frames: String::new(alloc),
            told: String::new(alloc),
            feed: NgFeed::new(alloc),
            alloc,
        }
    }

    /// Pushes a piece, where so many bytes can be counted.
    fn push(&mut self, piece: &[u8]) -> bool {
        let taken = self.feed.place().checked_add(self.feed.held() as u64);
        if taken
            .and_then(|n| n.checked_add(piece.len() as u64))
            .is_none()
        {
            return false;
        }
        self.feed.push(piece).is_ok()
    }

    fn keep(&mut self, text: &str) -> Result<(), AllocError> {
        self.count = self.count.saturating_add(1);
        self.frames.push_str(text)
    }

    /// Takes a piece, and each frame that then comes, with bytes of its own.
    pub fn take(&mut self, piece: &[u8]) -> Result<(), AllocError> {
        if !self.push(piece) {
            return Ok(());
        }
        for _ in 0..MOST_FRAMES {
            match self.feed.next() {
                Ok(Some(frame)) => {
                    let text = shown(self.alloc, own_head(&frame), frame.bytes.as_slice())?;
                    self.keep(text.as_str())?;
                }
                Ok(None) => return Ok(()),
                Err(fault) => {
                    self.told = fault_text(self.alloc, fault)?;
                    return Ok(());
                }
            }
        }
        Ok(())
    }

    /// The same, with each frame lent.
    pub fn take_lent(&mut self, piece: &[u8]) -> Result<(), AllocError> {
        if !self.push(piece) {
            return Ok(());
        }
        for _ in 0..MOST_FRAMES {
            match self.feed.next_frame() {
                Ok(Some(head)) => {
                    let block = self.feed.block();
                    let bytes = block
                        .get(head.from as usize..)
                        .and_then(|b| b.get(..head.captured as usize))
                        .unwrap_or(&[]);
                    let text = shown(self.alloc, head, bytes)?;
                    self.keep(text.as_str())?;
                }
                Ok(None) => return Ok(()),
                Err(fault) => {
                    self.told = fault_text(self.alloc, fault)?;
                    return Ok(());
                }
            }
        }
        Ok(())
    }

    /// How the bytes end; where a refusal was told before, that is the end.
    pub fn end(&self) -> Result<String, AllocError> {
        let end = match self.feed.finish() {
            Ok(()) => format!(in self.alloc; "end")?,
            Err(fault) => fault_text(self.alloc, fault)?,
        };
        if self.told.is_empty() || self.told == end {
            return Ok(end);
        }
        format!(in self.alloc; "{} and then {end}", self.told)
    }

    /// Whether a section has begun.
    pub fn begun(&self) -> &'static str {
        if self.feed.begun() {
            "begun"
        } else {
            "not begun"
        }
    }

    /// All of it as a line.
    pub fn line(&self) -> Result<String, AllocError> {
        let end = self.end()?;
        format!(in self.alloc; "{} [{}] {end}", self.begun(), self.frames)
    }
}

/// The numbers of a frame that has its own bytes.
fn own_head(frame: &NgFrame) -> NgHead {
    NgHead {
        seconds: frame.seconds,
        nanos: frame.nanos,
        original: frame.original,
        interface: frame.interface,
        ethernet: frame.ethernet,
        from: 0,
        captured: 0,
    }
}

/// A frame as a text: its time, its original length, its interface, `e` for an Ethernet, and its bytes or, where they are many,
/// their number and sum.
fn shown(alloc: Global, head: NgHead, bytes: &[u8]) -> Result<String, AllocError> {
    let content = if bytes.len() > 64 {
        let sum = bytes
            .iter()
            .fold(0u32, |sum, byte| sum.wrapping_add(u32::from(*byte)));
        format!(in alloc; "{} bytes of sum {sum}", bytes.len())?
    } else {
        hex::encode(alloc, bytes)?
    };
    let link = if head.ethernet { "e" } else { "o" };
    format!(in alloc;
        "({}.{:09} {} {}{link} {content})",
        head.seconds, head.nanos, head.original, head.interface
    )
}
