//! One command over desks that fail at one call each.

ghost use Rattle.std.specs.Prelude.{◌<◌};

use crate::desks::desk_of;
use crate::named_files::NamedFile;
use crate::ports::OUTPUTS;
use crate::statuses::show_status;
use sfc_desk::{MemoryDesk, Port};
use sfc_program::{OpenGate, Status, Words, sfc_call};
use std::alloc::{AllocError, Global};
use std::io;
use std::sync::Wait;
use std::thread::Threads;
use wire_base::{List, OutOfMemory};

/// More calls than any command of these rows makes.
const MOST: u64 = 100_000;

/// Want of memory, as the program ends with it.
fn memory_fault(_fault: OutOfMemory) -> AllocError {
    AllocError
}

/// A command over files, read in pieces of so many bytes, with so much room at each output.
#[derive(Drop)]
pub(crate) struct Failing<'a> {
    pub(crate) alloc: Global,
    pub(crate) files: &'a [NamedFile],
    pub(crate) piece: usize,
    pub(crate) room: usize,
    pub(crate) words: &'a Words,
}

/// How it ended.
#[derive(Drop)]
struct Ended {
    status: Status,
    desk: MemoryDesk,
}

/// Whether each output holds a front of what it holds in the whole run.
fn are_fronts(desk: &MemoryDesk, whole: &MemoryDesk) -> bool {
    for (_, port) in OUTPUTS {
        if !whole.output(port).starts_with(desk.output(port)) {
            return false;
        }
    }
    whole
        .output(Port::Report)
        .starts_with(desk.output(Port::Report))
}

impl<'a> Failing<'a> {
    /// The command over a new desk whose calls of these numbers fail; None where two files have one name.
    fn run<R: Threads + Wait + Sync>(
        &self,
        rt: &R,
        fail: List<u64>,
    ) -> Result<Option<Ended>, AllocError>
        requires { 0 < self.now.piece }
    {
        let desk = desk_of(self.alloc, self.piece, self.room, fail, self.files).map_err(
            memory_fault,
        )?;
        let Some(mut desk) = desk else {
            return Ok(None);
        };
        let status = sfc_call(rt, self.alloc, self.words, &mut desk, &OpenGate);
        Ok(Some(Ended { status, desk }))
    }

    /// The command over a new desk that fails at one call.
    fn run_without<R: Threads + Wait + Sync>(
        &self,
        rt: &R,
        call: u64,
    ) -> Result<Option<Ended>, AllocError>
        requires { 0 < self.now.piece }
    {
        let mut fail = List::new(self.alloc);
        fail.push(call).map_err(memory_fault)?;
        self.run(rt, fail)
    }

    /// Prints each status that the command ends with where one call fails, the first time that it is met, up to the first number that no call has any
    /// more; and each number behind whose failure an output holds no front of what the whole run writes.
    pub(crate) fn show<R: Print + Threads + Wait + Sync>(&self, rt: &R) -> io::Result<bool>
        requires { 0 < self.now.piece }
    {
        let Some(whole) = self.run(rt, List::new(self.alloc))? else {
            return Ok(false);
        };
        let mut seen = Vec::new(self.alloc);
        for call in 0..MOST {
            let Some(ended) = self.run_without(rt, call)? else {
                return Ok(false);
            };
            if !are_fronts(&ended.desk, &whole.desk) {
                println!(rt; "  call {call} leaves no front")?;
            }
            if !seen.contains(&ended.status) {
                show_status(rt, &ended.status)?;
                seen.push(ended.status)?;
            }
            if ended.status == whole.status {
                return Ok(true);
            }
        }
        Ok(false)
    }
}
