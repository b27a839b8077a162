//! The files of a run.

use sfc_desk::MemoryDesk;
use std::alloc::{AllocError, Global};
use wire_base::{List, OutOfMemory};

/// The most bytes of a read, and those that an output has room for.
const PIECE: usize = 65_536;

const ROOM: usize = 65_536;

/// What the rows said of the three files.
#[derive(Drop)]
pub(crate) struct Inputs {
    pub(crate) alloc: Global,
    pub(crate) setup: Vec<u8>,
    pub(crate) capture: Vec<u8>,
    pub(crate) control: Vec<u8>,
}

impl Inputs {
    pub(crate) fn new(alloc: Global) -> Inputs {
        Inputs {
            alloc,
            setup: Vec::new(alloc),
            capture: Vec::new(alloc),
            control: Vec::new(alloc),
        }
    }

    /// One more line of the setup.
    pub(crate) fn push_line(&mut self, line: &str) -> Result<(), AllocError> {
        self.setup.extend_from_slice(line.as_bytes())?;
        self.setup.push(b'\n')?;
        Ok(())
    }

    /// A desk that holds the files under their names.
    pub(crate) fn desk(&self) -> Result<MemoryDesk, OutOfMemory> {
        let mut desk = MemoryDesk::new(self.alloc, PIECE, List::new(self.alloc), ROOM)?;
        desk.add_file("setup", &self.setup)?;
        desk.add_file("capture", &self.capture)?;
        desk.add_file("control", &self.control)?;
        Ok(desk)
    }
}
