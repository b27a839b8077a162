//! The rows, one after the other.

use crate::desks::desk_of;
use crate::digits::{Digits, push_digits};
use crate::failures::Failing;
use crate::named_files::{NamedFile, file_of_digits, file_of_frames, push_line};
use crate::ports::{OUTPUTS, port_named};
use crate::statuses::show_status;
use commands::{ReadFault, read_all};
use sfc_desk::{Desk, MemoryDesk, Port};
use sfc_program::{OpenGate, Words, sfc_call};
use std::alloc::{AllocError, Global};
use std::io;
use std::str::SplitWhitespace;
use std::sync::Wait;
use std::thread::Threads;
use wire_base::{List, OutOfMemory};

/// Want of memory, as the program ends with it.
fn memory_fault(_fault: OutOfMemory) -> AllocError {
    AllocError
}

/// What earlier rows said.
#[derive(Drop)]
pub(crate) struct Rows {
    alloc: Global,
    files: Vec<NamedFile>,
    desk: Option<MemoryDesk>,
}

impl Rows {
    pub(crate) fn new(alloc: Global) -> Rows {
        Rows {
            alloc,
            files: Vec::new(alloc),
            desk: None,
        }
    }

    /// Keeps what the row says for later ones, or prints the row and what it shows.
    pub(crate) fn take<R: Print + Threads + Wait + Sync>(
        &mut self,
        rt: &R,
        line: &str,
    ) -> io::Result<()> {
        if line.is_empty() || line.starts_with('#') {
            return Ok(());
        }
        let mut words = line.split_whitespace();
        let word = words.next().unwrap_or("");
        let told = match word {
            "file" => self.keep(file_of_digits(self.alloc, &mut words)?)?,
            "frames" => self.keep(file_of_frames(self.alloc, &mut words)?)?,
            "text" => push_line(self.alloc, &mut self.files, &mut words)?,
            _ => {
                println!(rt; "{line}")?;
                self.show(rt, word, &mut words)?
            }
        };
        if !told {
            println!(rt; "? {line}")?;
        }
        Ok(())
    }

    fn keep(&mut self, file: Option<NamedFile>) -> Result<bool, AllocError> {
        let Some(file) = file else {
            return Ok(false);
        };
        self.files.push(file)?;
        Ok(true)
    }

    /// Does what the row says, and prints what it shows; false where it has another form.
    fn show<R: Print + Threads + Wait + Sync>(
        &mut self,
        rt: &R,
        word: &str,
        words: &mut SplitWhitespace,
    ) -> io::Result<bool> {
        match word {
            "desk" => Ok(self.lay(words)?),
            "bind" => self.bind(rt, words),
            "read" => self.read(rt, words),
            "sfc" => self.call(rt, words),
            "fails" => self.fail_each(rt, words),
            _ => Ok(false),
        }
    }

    /// `desk PIECE ROOM CALL ..`
    fn lay(&mut self, words: &mut SplitWhitespace) -> Result<bool, AllocError> {
        let (Some(piece), Some(room)) = (next_number(words), next_number(words)) else {
            return Ok(false);
        };
        if piece == 0 {
            return Ok(false);
        }
        let mut fail = List::new(self.alloc);
        for word in words {
            let Ok(call) = word.parse::<u64>() else {
                return Ok(false);
            };
            fail.push(call).map_err(memory_fault)?;
        }
        self.desk = desk_of(self.alloc, piece as usize, room as usize, fail, &self.files).map_err(
            memory_fault,
        )?;
        Ok(self.desk.is_some())
    }

    /// `bind PORT NAME DIGITS ..`
    fn bind<R: Print>(&mut self, rt: &R, words: &mut SplitWhitespace) -> io::Result<bool> {
        let Some(port) = words.next().and_then(port_named) else {
            return Ok(false);
        };
        let (Some(name), Some(desk)) = (words.next(), &mut self.desk) else {
            return Ok(false);
        };
        let mut bytes = Vec::new(self.alloc);
        for digits in words {
            if !push_digits(&mut bytes, digits)? {
                return Ok(false);
            }
        }
        let told = bind_and_write(desk, port, name, &bytes);
        println!(rt; "  {told}")?;
        Ok(true)
    }

    /// `read PORT NAME LIMIT`
    fn read<R: Print>(&mut self, rt: &R, words: &mut SplitWhitespace) -> io::Result<bool> {
        let Some(port) = words.next().and_then(port_named) else {
            return Ok(false);
        };
        let (Some(name), Some(limit)) = (words.next(), next_number(words)) else {
            return Ok(false);
        };
        let Some(desk) = &mut self.desk else {
            return Ok(false);
        };
        match bind_and_read(self.alloc, desk, port, name, limit) {
            Ok(bytes) => println!(rt; "  whole {}", Digits(&bytes))?,
            Err(ReadFault::Long) => println!(rt; "  long")?,
            Err(ReadFault::File) => println!(rt; "  file")?,
            Err(ReadFault::OutOfMemory) => return Err(AllocError.into()),
        }
        Ok(true)
    }

    /// `sfc WORD ..`
    fn call<R: Print + Threads + Wait + Sync>(
        &mut self,
        rt: &R,
        words: &mut SplitWhitespace,
    ) -> io::Result<bool> {
        let words = words_of(self.alloc, words).map_err(memory_fault)?;
        let Some(desk) = &mut self.desk else {
            return Ok(false);
        };
        let status = sfc_call(rt, self.alloc, &words, desk, &OpenGate);
        show_status(rt, &status)?;
        show_outputs(rt, desk)?;
        Ok(true)
    }

    /// `fails PIECE ROOM WORD ..`
    fn fail_each<R: Print + Threads + Wait + Sync>(
        &self,
        rt: &R,
        words: &mut SplitWhitespace,
    ) -> io::Result<bool> {
        let (Some(piece), Some(room)) = (next_number(words), next_number(words)) else {
            return Ok(false);
        };
        if piece == 0 {
            return Ok(false);
        }
        let words = words_of(self.alloc, words).map_err(memory_fault)?;
        let failing = Failing {
            alloc: self.alloc,
            files: &self.files,
            piece: piece as usize,
            room: room as usize,
            words: &words,
        };
        failing.show(rt)
    }
}

fn next_number(words: &mut SplitWhitespace) -> Option<u32> {
    words.next()?.parse().ok()
}

/// The words of a command, where `""` is the empty word.
fn words_of(alloc: Global, line: &mut SplitWhitespace) -> Result<Words, OutOfMemory> {
    let mut words = Words::new(alloc);
    for word in line {
        words.push(if word == "\"\"" { "" } else { word })?;
    }
    Ok(words)
}

/// Binds the port, and writes these bytes where it is an output.
fn bind_and_write(desk: &mut MemoryDesk, port: Port, name: &str, bytes: &[u8]) -> &'static str {
    if port == Port::Report {
        return "no bind";
    }
    if desk.bind(port, name).is_err() {
        return "bind failed";
    }
    if port.is_input() || bytes.is_empty() {
        return "bound";
    }
    match desk.write(port, bytes) {
        Ok(_) => "written",
        Err(_) => "write failed",
    }
}

/// All bytes of an input, of which there are at most so many.
fn bind_and_read(
    alloc: Global,
    desk: &mut MemoryDesk,
    port: Port,
    name: &str,
    limit: u32,
) -> Result<Vec<u8>, ReadFault> {
    if !port.is_input() {
        return Err(ReadFault::File);
    }
    desk.bind(port, name)?;
    read_all(alloc, desk, port, limit as usize)
}

/// Prints what each output holds that is not empty.
fn show_outputs<R: Print>(rt: &R, desk: &MemoryDesk) -> io::Result<()> {
    for (word, port) in OUTPUTS {
        let bytes = desk.output(port);
        if !bytes.is_empty() {
            println!(rt; "  {word} {}", Digits(bytes))?;
        }
    }
    show_report(rt, desk.output(Port::Report))
}

/// Prints how many bytes Report took, and their lines.
fn show_report<R: Print>(rt: &R, bytes: &[u8]) -> io::Result<()> {
    if bytes.is_empty() {
        return Ok(());
    }
    println!(rt; "  report {} bytes", bytes.len())?;
    let Ok(text) = str::from_utf8(bytes) else {
        return println!(rt; "  | {}", Digits(bytes));
    };
    for line in text.lines() {
        println!(rt; "  | {line}")?;
    }
    Ok(())
}
