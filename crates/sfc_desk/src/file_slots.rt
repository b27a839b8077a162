ghost use Rattle.std.specs.Prelude.{◌≡◌, ◌≢◌, ◌<◌, ◌≤◌, false, Some, length, is_ok, is_some, IfOk, if◌then◌else◌};
ghost use Rattle.std.specs.List.{list_any};
ghost use Rattle.std.specs.Io.KnownBytes.{ReadConsumes, WriteAppends};
ghost use Rattle.sfc_desk.specs.Desks.{raised};
ghost use Rattle.sfc_desk.specs.FileSlots.{left_known, taken_known, opened_by, is_input_file};
ghost use Rattle.sfc_desk.specs.declared.file_slots.Opened.TheVariants.{StandardOutput};

use crate::desks::Failed;
use crate::retries::{read_some, write_some};
use std::alloc::Global;
use std::io;
use std::io::{ErrorKind, Read, Write};

/// What tells a regular file from every other one, whatever its names are.
#[derive(Clone, Copy, PartialEq, Eq)]
pub(crate) struct Identity {
    pub(crate) device: u64,
    pub(crate) number: u64,
}

/// A file that is read, and which regular file it is, where it is one.
#[derive(Drop)]
pub(crate) struct InputFile<F> {
    pub(crate) file: F,
    pub(crate) identity: Option<Identity>,
}

/// What a bind opened: a file, or standard output as it was handed to the program.
#[derive(Drop)]
pub(crate) enum Opened<F> {
    Input(InputFile<F>),
    Output(F),
    StandardOutput,
}

/// One port of a `FileDesk`: what the latest bind opened where it answered Ok, the counts, and what
/// is told of a failure: the name that the latest bind was given, where there was memory for it, and
/// why the last call failed that did.
#[derive(Drop)]
pub(crate) struct FileSlot<F> {
    pub(crate) opened: Option<Opened<F>>,
    pub(crate) binds: u64,
    pub(crate) faults: u64,
    pub(crate) name: Option<String>,
    pub(crate) reason: Option<io::Error>,
}

/// Whether a bound input is this file.
pub(crate) fn is_bound_input<F>(slots: &[FileSlot<F>], found: Identity) -> bool
    ensures { result ≡ list_any (is_input_file found) slots.now }
{
    slots.iter().any(|slot| slot.is_input_file(found))
}

impl<F> FileSlot<F> {
    /// Whether the port reads this file.
    fn is_input_file(&self, found: Identity) -> bool
        ensures { result ≡ is_input_file found self.now }
    {
        match &self.opened {
            Some(Opened::Input(input)) => match input.identity {
                Some(own) => own.device == found.device && own.number == found.number,
                None => false,
            },
            _ => false,
        }
    }
}

impl<F: Drop> FileSlot<F> {
    /// A port that was never bound.
    pub(crate) fn closed() -> FileSlot<F> {
        FileSlot {
            opened: None,
            binds: 0,
            faults: 0,
            name: None,
            reason: None,
        }
    }

    /// Keeps the name that a bind was given, and what it opened or why it opened nothing.
    pub(crate) fn keep(
        &mut self,
        alloc: Global,
        name: &str,
        opened: io::Result<Opened<F>>,
    ) -> Result<(), Failed>
        ensures answer { is_ok result ≡ is_ok opened }
        ensures opened { self.new.opened ≡ opened_by opened }
        ensures bound { is_some self.new.opened ≡ is_ok result }
        ensures binds { self.new.binds ≡ (if is_ok result then raised self.old.binds else self.old.binds) }
        ensures faults { self.new.faults ≡ (if is_ok result then self.old.faults else raised self.old.faults) }
        ensures later { self.old.faults ≤ self.new.faults }
    {
        self.name = String::from_str(alloc, name).ok();
        match opened {
            Ok(opened) => {
                self.opened = Some(opened);
                self.binds = self.binds.saturating_add(1);
                Ok(())
            }
            Err(reason) => {
                self.opened = None;
                Err(self.fail(reason))
            }
        }
    }

    /// Counts a call that moved nothing.
    pub(crate) fn fail(&mut self, reason: io::Error) -> Failed
        ensures opened { self.new.opened ≡ self.old.opened }
        ensures binds { self.new.binds ≡ self.old.binds }
        ensures faults { self.new.faults ≡ raised self.old.faults }
        ensures later { self.old.faults ≤ self.new.faults }
        ensures reason { self.new.reason ≡ Some reason }
    {
        self.faults = self.faults.saturating_add(1);
        self.reason = Some(reason);
        Failed
    }
}

impl<F: Read + Write + Drop> FileSlot<F> {
    /// Moves the next bytes of the file to the front of the slice.
    pub(crate) fn read(&mut self, into: &mut [u8]) -> Result<usize, Failed>
        ensures given { ReadConsumes (left_known F.remaining self.old) (left_known F.remaining self.new) result into.new }
        ensures count { IfOk result (λ n. n ≤ length into.new) }
        ensures bound { is_some self.new.opened ≡ is_some self.old.opened }
        ensures binds { self.new.binds ≡ self.old.binds }
        ensures faults { self.new.faults ≡ (if is_ok result then self.old.faults else raised self.old.faults) }
        ensures later { self.old.faults ≤ self.new.faults }
    {
        let moved = match &mut self.opened {
            Some(Opened::Input(input)) => read_some(&mut input.file, into),
            _ => Err(io::Error::from(ErrorKind::Unsupported)),
        };
        match moved {
            Ok(count) => Ok(count),
            Err(reason) => Err(self.fail(reason)),
        }
    }

    /// Appends a front of the bytes to the file, or to the standard output that is handed in, where
    /// that is allowed.
    pub(crate) fn write<O: Write>(
        &mut self,
        allowed: io::Result<()>,
        output: &mut O,
        bytes: &[u8],
    ) -> Result<usize, Failed>
        ensures refused { is_ok allowed ≡ false → is_ok result ≡ false }
        ensures taken { WriteAppends (taken_known F.contents O.contents self.old output.old)
            (taken_known F.contents O.contents self.new output.new) result bytes.now }
        ensures beside { self.old.opened ≢ Some StandardOutput → output.new ≡ output.old }
        ensures count { IfOk result (λ n. n ≤ length bytes.now) }
        ensures some { IfOk result (λ n. 0 < length bytes.now → 0 < n) }
        ensures bound { is_some self.new.opened ≡ is_some self.old.opened }
        ensures binds { self.new.binds ≡ self.old.binds }
        ensures faults { self.new.faults ≡ (if is_ok result then self.old.faults else raised self.old.faults) }
        ensures later { self.old.faults ≤ self.new.faults }
    {
        if let Err(reason) = allowed {
            return Err(self.fail(reason));
        }
        let moved = match &mut self.opened {
            Some(Opened::Output(file)) => write_some(file, bytes),
            Some(Opened::StandardOutput) => write_some(output, bytes),
            _ => Err(io::Error::from(ErrorKind::Unsupported)),
        };
        match moved {
            Ok(0) if !bytes.is_empty() => { Err(self.fail(io::Error::from(ErrorKind::WriteZero))) }
            Ok(count) => Ok(count),
            Err(reason) => Err(self.fail(reason)),
        }
    }
}
