//! The rows, one after the other.

use crate::edits::{Outcome, edit, fill};
use crate::named_frames::FrameTable;
use crate::rules::{push_rule, show_rules};
use crate::texts::{Digits, FieldLine, VerdictText};
use classifier::RuleList;
use net_frames::Frame;
use std::alloc::{AllocError, Global};
use std::io;
use std::str::SplitWhitespace;
use wire_base::OutOfMemory;

/// Room for more than a frame has.
const WIDE: u32 = 300_000;

/// Want of memory, as the program ends with it.
fn memory_fault(_fault: OutOfMemory) -> AllocError {
    AllocError
}

/// What earlier rows said.
#[derive(Drop)]
pub(crate) struct Rows {
    alloc: Global,
    frames: FrameTable,
    rules: RuleList,
}

impl Rows {
    pub(crate) fn new(alloc: Global) -> Rows {
        Rows {
            alloc,
            frames: FrameTable::new(alloc),
            rules: RuleList::new(alloc),
        }
    }

    /// Keeps what the row says for later ones, or prints the row and what it shows.
    pub(crate) fn take<R: Print>(&mut self, rt: &R, line: &str) -> io::Result<()> {
        if line.is_empty() || line.starts_with('#') {
            return Ok(());
        }
        let mut words = line.split_whitespace();
        let told = match words.next().unwrap_or("") {
            "frame" => self.frames.keep_digits(words)?,
            "zeros" => self.frames.keep_zeros(words)?,
            word => {
                println!(rt; "{line}")?;
                self.show(rt, line, word, words)?
            }
        };
        if !told {
            println!(rt; "? {line}")?;
        }
        Ok(())
    }

    /// Does what the row says, and prints what it shows; false where it has another form.
    fn show<R: Print>(
        &mut self,
        rt: &R,
        line: &str,
        word: &str,
        words: SplitWhitespace,
    ) -> io::Result<bool> {
        match word {
            "fields" => self.show_fields(rt, words),
            "cut-fields" => self.show_cut_fields(rt, words),
            "edit" => self.show_edits(rt, words),
            "cut-edit" => self.show_cut_edits(rt, words),
            "rule" => Ok(push_rule(&mut self.rules, line).map_err(memory_fault)?),
            "no-rules" => Ok(self.forget_rules()),
            "rules" => show_rules(rt, &self.rules),
            "verdicts" => self.show_verdicts(rt, words),
            _ => Ok(false),
        }
    }

    fn forget_rules(&mut self) -> bool {
        self.rules = RuleList::new(self.alloc);
        true
    }

    /// `fields FRONT`
    fn show_fields<R: Print>(&self, rt: &R, mut words: SplitWhitespace) -> io::Result<bool> {
        let Some(bytes) = words.next().and_then(|word| self.frames.front(word)) else {
            return Ok(false);
        };
        let Some(frame) = self.holding(bytes)? else {
            return Ok(false);
        };
        println!(rt; "  {}", FieldLine(frame.fields()))?;
        Ok(true)
    }

    /// `cut-fields FRONT`
    fn show_cut_fields<R: Print>(&self, rt: &R, mut words: SplitWhitespace) -> io::Result<bool> {
        let Some(bytes) = words.next().and_then(|word| self.frames.front(word)) else {
            return Ok(false);
        };
        for n in 0..=bytes.len() {
            let Some(frame) = self.holding(&bytes[..n])? else {
                return Ok(false);
            };
            println!(rt; "  {n} {}", FieldLine(frame.fields()))?;
        }
        Ok(true)
    }

    /// `edit ROOM EDIT ..`
    fn show_edits<R: Print>(&self, rt: &R, mut words: SplitWhitespace) -> io::Result<bool> {
        let Some(Ok(room)) = words.next().map(|word| word.parse::<u32>()) else {
            return Ok(false);
        };
        let mut frame = Frame::with_room(self.alloc, room.min(WIDE)).map_err(memory_fault)?;
        for word in words {
            let Some(outcome) = edit(&mut frame, &self.frames, word) else {
                return Ok(false);
            };
            println!(rt;
                "  {outcome} {} {}",
                frame.original(),
                Digits(frame.bytes())
            )?;
        }
        Ok(true)
    }

    /// `cut-edit FRONT EDIT ..`
    fn show_cut_edits<R: Print>(&self, rt: &R, mut words: SplitWhitespace) -> io::Result<bool> {
        let Some(bytes) = words.next().and_then(|word| self.frames.front(word)) else {
            return Ok(false);
        };
        for n in 0..=bytes.len() {
            let Some(mut frame) = self.holding(&bytes[..n])? else {
                return Ok(false);
            };
            if edit_all(&mut frame, &self.frames, words.clone()?).is_none() {
                return Ok(false);
            }
            println!(rt; "  {n} {}", Digits(frame.bytes()))?;
        }
        Ok(true)
    }

    /// `verdicts FRONT ..`
    fn show_verdicts<R: Print>(&self, rt: &R, words: SplitWhitespace) -> io::Result<bool> {
        print!(rt; " ")?;
        for word in words {
            let Some(bytes) = self.frames.front(word) else {
                return Ok(false);
            };
            let Some(frame) = self.holding(bytes)? else {
                return Ok(false);
            };
            print!(rt; " {}", VerdictText(self.rules.classify(&frame)))?;
        }
        println!(rt)?;
        Ok(true)
    }

    /// A frame with room for more than a frame has, that holds these bytes; None where they are more than a frame has.
    fn holding(&self, bytes: &[u8]) -> Result<Option<Frame>, AllocError> {
        let mut frame = Frame::with_room(self.alloc, WIDE).map_err(memory_fault)?;
        let Ok(original) = u32::try_from(bytes.len()) else {
            return Ok(None);
        };
        match fill(&mut frame, bytes, original) {
            Some(Outcome::Done) => Ok(Some(frame)),
            _ => Ok(None),
        }
    }
}

/// Makes all edits; None where a word tells none.
fn edit_all(frame: &mut Frame, frames: &FrameTable, words: SplitWhitespace) -> Option<()> {
    for word in words {
        let _ = edit(frame, frames, word)?;
    }
    Some(())
}
