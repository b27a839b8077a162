//! The rows, one after the other.

use crate::frame_rows::{FrameRow, frame_of};
use crate::scripts::script_of;
use crate::walks::{push_line, push_walk};
use crate::words::{next_number, path_of};
use anyhow::{anyhow, bail};
use forwarder::Workspace;
use path_selection::{Change, Still, Table};
use sfc_config::{Setup, SetupFault, parse_setup};
use std::alloc::Global;
use std::io::{self, Write};
use std::mem;
use std::str::SplitWhitespace;
use wire_base::{Bytes, OutOfMemory};

/// Want of memory, as the program ends with it.
fn memory_fault(_fault: OutOfMemory) -> anyhow::Error {
    anyhow!("no memory for a row")
}

/// What earlier rows said.
#[derive(Drop)]
pub(crate) struct Rows {
    alloc: Global,
    setup: Bytes,
    table: Table,
    later: Table,
    frames: Vec<FrameRow>,
}

impl Rows {
    pub(crate) fn new(alloc: Global) -> Rows {
        Rows {
            alloc,
            setup: Bytes::new(alloc),
            table: Table::empty(alloc),
            later: Table::empty(alloc),
            frames: Vec::new(alloc),
        }
    }

    /// Prints the row, does what it says, and prints what it shows.
    pub(crate) fn take<R: Print>(&mut self, rt: &R, line: &str) -> anyhow::Result<()> {
        println!(rt; "{line}")?;
        if line.is_empty() || line.starts_with('#') {
            return Ok(());
        }
        let mut words = line.split_whitespace();
        let told = match words.next().unwrap_or("") {
            "new" => self.begin(),
            "put" => put(self.alloc, &mut self.table, words)?,
            "then" => put(self.alloc, &mut self.later, words)?,
            "frame" => self.keep_frame(words)?,
            "still" => self.still(rt, words)?,
            "script" => self.script(rt, words)?,
            "lines" => self.lines(rt, words)?,
            _ => self.say(line)?,
        };
        if !told {
            println!(rt; "  ?")?;
        }
        Ok(())
    }

    fn begin(&mut self) -> bool {
        *self = Rows::new(self.alloc);
        true
    }

    /// A line more of the setup.
    fn say(&mut self, line: &str) -> anyhow::Result<bool> {
        self.setup.push_all(line.as_bytes()).map_err(memory_fault)?;
        self.setup.push_all(b"\n").map_err(memory_fault)?;
        Ok(true)
    }

    fn keep_frame(&mut self, words: SplitWhitespace) -> anyhow::Result<bool> {
        match frame_of(self.alloc, words)? {
            Some(frame) => {
                self.frames.push(frame)?;
                Ok(true)
            }
            None => Ok(false),
        }
    }

    /// The setup of the lines so far; None where they are refused.
    fn read_setup(&self) -> anyhow::Result<Option<Setup>> {
        match parse_setup(self.alloc, self.setup.as_slice()) {
            Ok(setup) => Ok(Some(setup)),
            Err(SetupFault::OutOfMemory) => bail!("no memory for a setup"),
            Err(SetupFault::Line(_, _)) => Ok(None),
        }
    }

    fn still<R: Print>(&self, rt: &R, mut words: SplitWhitespace) -> anyhow::Result<bool> {
        let Some(version) = next_number(&mut words, u64::MAX) else {
            return Ok(false);
        };
        let Some(setup) = self.read_setup()? else {
            return Ok(false);
        };
        let text = self.still_walks(&setup, version).map_err(memory_fault)?;
        io::writer(rt).write_all(text.as_slice())?;
        Ok(true)
    }

    /// What the walks of the frames show, over the table.
    fn still_walks(&self, setup: &Setup, version: u64) -> Result<Bytes, OutOfMemory> {
        let mut out = Bytes::new(self.alloc);
        let mut still = Still::new(&self.table, version);
        let mut work = Workspace::new(self.alloc, true)?;
        let mut number = 0;
        for frame in &self.frames {
            push_walk(
                self.alloc, &mut out, setup, &mut still, &mut work, number, frame,
            )?;
            number = number.wrapping_add(1);
        }
        Ok(out)
    }

    fn script<R: Print>(&mut self, rt: &R, mut words: SplitWhitespace) -> anyhow::Result<bool> {
        let Some(version) = next_number(&mut words, 4_294_967_295) else {
            return Ok(false);
        };
        let Some(setup) = self.read_setup()? else {
            return Ok(false);
        };
        let text = self
            .script_walks(&setup, version as u32)
            .map_err(memory_fault)?;
        io::writer(rt).write_all(text.as_slice())?;
        Ok(true)
    }

    /// What the walks of the frames show, over both tables.
    fn script_walks(&mut self, setup: &Setup, version: u32) -> Result<Bytes, OutOfMemory> {
        let table = mem::replace(&mut self.table, Table::empty(self.alloc));
        let later = mem::replace(&mut self.later, Table::empty(self.alloc));
        let mut out = Bytes::new(self.alloc);
        let mut script = script_of(self.alloc, table, later, version)?;
        let mut work = Workspace::new(self.alloc, true)?;
        let mut number = 0;
        for frame in &self.frames {
            push_walk(
                self.alloc,
                &mut out,
                setup,
                &mut script,
                &mut work,
                number,
                frame,
            )?;
            number = number.wrapping_add(1);
        }
        Ok(out)
    }

    fn lines<R: Print>(&self, rt: &R, mut words: SplitWhitespace) -> anyhow::Result<bool> {
        let Some(version) = next_number(&mut words, u64::MAX) else {
            return Ok(false);
        };
        let Some(count) = next_number(&mut words, u64::MAX) else {
            return Ok(false);
        };
        let Some(setup) = self.read_setup()? else {
            return Ok(false);
        };
        self.print_lines(rt, &setup, version, count)?;
        Ok(true)
    }

    /// The frame whose turn it is.
    fn turn(&self, number: u64) -> Option<&FrameRow> {
        let count = self.frames.len() as u64;
        if count == 0 {
            return None;
        }
        self.frames.get((number % count) as usize)
    }

    /// Prints the lines of so many frames, those of the rows in turn.
    fn print_lines<R: Print>(
        &self,
        rt: &R,
        setup: &Setup,
        version: u64,
        count: u64,
    ) -> anyhow::Result<()> {
        let mut out = Bytes::new(self.alloc);
        let mut still = Still::new(&self.table, version);
        let mut work = Workspace::new(self.alloc, false).map_err(memory_fault)?;
        for number in 0..count {
            if let Some(frame) = self.turn(number) {
                push_line(
                    self.alloc, &mut out, setup, &mut still, &mut work, number, frame,
                )
                .map_err(memory_fault)?;
            }
            write_past(rt, &mut out, 65_536)?;
        }
        write_past(rt, &mut out, 0)?;
        Ok(())
    }
}

/// Writes the text where it has more bytes than this, and empties it.
fn write_past<R: Print>(rt: &R, out: &mut Bytes, most: usize) -> io::Result<()> {
    if out.as_slice().len() > most {
        io::writer(rt).write_all(out.as_slice())?;
        out.clear();
    }
    Ok(())
}

/// A path joins a table.
fn put(alloc: Global, table: &mut Table, words: SplitWhitespace) -> anyhow::Result<bool> {
    match path_of(alloc, words).map_err(memory_fault)? {
        Some(path) => {
            table.apply(Change::Put(path)).map_err(memory_fault)?;
            Ok(true)
        }
        None => Ok(false),
    }
}
