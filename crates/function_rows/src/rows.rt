//! The rows, one after the other.

ghost use Rattle.service_functions.specs.Functions.{IsFunction};

use crate::calls::{Caller, read_function, serve_by, serve_there};
use crate::texts::{Digits, read_bytes};
use net_frames::Frame;
use nsh_metadata::{decode_nsh, encode_nsh};
use service_functions::{Function, Served};
use std::alloc::{AllocError, Global};
use std::str::SplitWhitespace;
use std::{fmt, io};
use wire_base::OutOfMemory;

/// The most room of a frame, more than a frame takes.
const WIDE: u32 = 300_000;

/// Want of memory, as the program ends with it.
fn memory_fault(_fault: OutOfMemory) -> AllocError {
    AllocError
}

/// What earlier rows said.
#[derive(Drop)]
pub(crate) struct Rows {
    alloc: Global,
    room: u32,
    original: u32,
    bytes: Vec<u8>,
    header: Vec<u8>,
    cuts: Vec<usize>,
}

impl Rows {
    pub(crate) fn new(alloc: Global) -> Rows {
        Rows {
            alloc,
            room: 0,
            original: 0,
            bytes: Vec::new(alloc),
            header: Vec::new(alloc),
            cuts: Vec::new(alloc),
        }
    }

    /// Keeps what the row says for later ones, or prints the row and what it shows.
    pub(crate) fn take<R: Print>(&mut self, rt: &R, line: &str) -> io::Result<()> {
        if line.starts_with('#') {
            println!(rt; "{line}")?;
            return Ok(());
        }
        let mut words = line.split_whitespace();
        let told = match words.next().unwrap_or("") {
            "frame" => self.keep_frame(words)?,
            "zeros" => self.keep_zeros(words)?,
            "header" => self.keep_header(words)?,
            "cuts" => self.keep_cuts(words)?,
            _ => {
                println!(rt; "{line}")?;
                self.show(rt, line)?
            }
        };
        if !told {
            println!(rt; "? {line}")?;
        }
        Ok(())
    }

    /// `frame ROOM ORIGINAL DIGITS ..`
    fn keep_frame(&mut self, mut words: SplitWhitespace) -> Result<bool, AllocError> {
        if !self.keep_sizes(&mut words) {
            return Ok(false);
        }
        match read_bytes(self.alloc, words)? {
            Some(bytes) => {
                self.bytes = bytes;
                Ok(true)
            }
            None => Ok(false),
        }
    }

    /// `zeros ROOM ORIGINAL COUNT`
    fn keep_zeros(&mut self, mut words: SplitWhitespace) -> Result<bool, AllocError> {
        if !self.keep_sizes(&mut words) {
            return Ok(false);
        }
        let Some(Ok(count)) = words.next().map(|word| word.parse::<usize>()) else {
            return Ok(false);
        };
        self.bytes.clear();
        self.bytes.resize(count.min(WIDE as usize), 0)?;
        Ok(true)
    }

    /// The room and the length on the wire.
    fn keep_sizes(&mut self, words: &mut SplitWhitespace) -> bool {
        let Some(Ok(room)) = words.next().map(|word| word.parse::<u32>()) else {
            return false;
        };
        let Some(Ok(original)) = words.next().map(|word| word.parse::<u32>()) else {
            return false;
        };
        self.room = room.min(WIDE);
        self.original = original;
        true
    }

    /// `header DIGITS`
    fn keep_header(&mut self, words: SplitWhitespace) -> Result<bool, AllocError> {
        match read_bytes(self.alloc, words)? {
            Some(header) => {
                self.header = header;
                Ok(true)
            }
            None => Ok(false),
        }
    }

    /// `cuts COUNT ..`
    fn keep_cuts(&mut self, words: SplitWhitespace) -> Result<bool, AllocError> {
        self.cuts.clear();
        for word in words {
            let Ok(count) = word.parse::<usize>() else {
                return Ok(false);
            };
            self.cuts.push(count)?;
        }
        Ok(true)
    }

    /// Does what the row says, and prints what it shows; false where it has another form.
    fn show<R: Print>(&mut self, rt: &R, line: &str) -> io::Result<bool> {
        let (cut, call) = match line.strip_prefix("cut ") {
            Some(call) => (true, call),
            None => (false, line),
        };
        let Some((word, told)) = call.split_once(' ') else {
            return Ok(false);
        };
        let Some(caller) = Caller::of(word) else {
            return Ok(false);
        };
        let instance = format!(in self.alloc; "row 0000000000000001 32 aware {told}")?;
        let Some(function) = read_function(instance.as_str()) else {
            return Ok(false);
        };
        if cut {
            self.show_cuts(rt, caller, &function)
        } else {
            self.show_one(rt, caller, &function)
        }
    }

    /// Serves the frame and its header, and keeps both.
    fn show_one<R: Print>(
        &mut self,
        rt: &R,
        caller: Caller,
        function: &Function,
    ) -> io::Result<bool>
        requires { IsFunction function.now }
    {
        let Some(left) = self.left(caller, function, &self.bytes, self.original)? else {
            return Ok(false);
        };
        println!(rt; "  {} {}", FrameLine(&left), Digits(&left.header))?;
        if caller != Caller::Alone {
            let there = self.left_there(caller, function, &self.bytes, self.original)?;
            show_there(rt, &left, there)?;
        }
        self.original = left.original;
        self.bytes = left.frame;
        self.header = left.header;
        Ok(true)
    }

    /// Serves each cut of the frame.
    fn show_cuts<R: Print>(&self, rt: &R, caller: Caller, function: &Function) -> io::Result<bool>
        requires { IsFunction function.now }
    {
        for n in &self.cuts {
            let Some(front) = self.bytes.get(..*n) else {
                continue;
            };
            if !self.show_cut(rt, caller, function, front)? {
                return Ok(false);
            }
        }
        Ok(true)
    }

    fn show_cut<R: Print>(
        &self,
        rt: &R,
        caller: Caller,
        function: &Function,
        front: &[u8],
    ) -> io::Result<bool>
        requires { IsFunction function.now }
    {
        let Ok(original) = u32::try_from(front.len()) else {
            return Ok(false);
        };
        let Some(left) = self.left(caller, function, front, original)? else {
            return Ok(false);
        };
        println!(rt; "  {original}: {}", FrameLine(&left))?;
        if caller == Caller::Alone {
            return Ok(true);
        }
        let there = self.left_there(caller, function, front, original)?;
        if !is_same(&left, &there) {
            show_there(rt, &left, there)?;
        }
        Ok(true)
    }

    /// What a call on values leaves; None where the caller may not serve, or the row has no frame or header.
    fn left(
        &self,
        caller: Caller,
        function: &Function,
        bytes: &[u8],
        original: u32,
    ) -> Result<Option<Left>, AllocError>
        requires { IsFunction function.now }
    {
        let Some(mut frame) = self.holding(bytes, original)? else {
            return Ok(None);
        };
        let Ok((mut nsh, _)) = decode_nsh(&self.header) else {
            return Ok(None);
        };
        let Some(served) = serve_by(caller, function, &mut frame, &mut nsh) else {
            return Ok(None);
        };
        let mut buffer = [0; 252];
        let Ok(size) = encode_nsh(&nsh, &mut buffer) else {
            return Ok(None);
        };
        Ok(Some(Left::of(
            self.alloc,
            served,
            &frame,
            buffer.get(..size).unwrap_or(&[]),
        )?))
    }

    /// What a call leaves where the header lies.
    fn left_there(
        &self,
        caller: Caller,
        function: &Function,
        bytes: &[u8],
        original: u32,
    ) -> Result<Option<Left>, AllocError>
        requires { IsFunction function.now }
    {
        let Some(mut frame) = self.holding(bytes, original)? else {
            return Ok(None);
        };
        let Ok((nsh, _)) = decode_nsh(&self.header) else {
            return Ok(None);
        };
        let mut buffer = [0; 252];
        let Some((served, size)) = serve_there(caller, function, &mut frame, &nsh, &mut buffer)
        else {
            return Ok(None);
        };
        Ok(Some(Left::of(
            self.alloc,
            served,
            &frame,
            buffer.get(..size).unwrap_or(&[]),
        )?))
    }

    /// A frame with this room that holds these bytes; None where they are more than it or a frame has.
    fn holding(&self, bytes: &[u8], original: u32) -> Result<Option<Frame>, AllocError> {
        let mut frame = Frame::with_room(self.alloc, self.room).map_err(memory_fault)?;
        if bytes.len() > 262_144 || bytes.len() > original as usize || original > 2_147_483_647 {
            return Ok(None);
        }
        match frame.fill(bytes, original) {
            Ok(()) => Ok(Some(frame)),
            Err(_) => Ok(None),
        }
    }
}

fn copied(alloc: Global, bytes: &[u8]) -> Result<Vec<u8>, AllocError> {
    let mut copy = Vec::new(alloc);
    copy.extend_from_slice(bytes)?;
    Ok(copy)
}

/// What a call left, beside its answer.
#[derive(Drop)]
struct Left {
    served: Served,
    original: u32,
    frame: Vec<u8>,
    header: Vec<u8>,
}

impl Left {
    fn of(alloc: Global, served: Served, frame: &Frame, header: &[u8]) -> Result<Left, AllocError> {
        Ok(Left {
            served,
            original: frame.original(),
            frame: copied(alloc, frame.bytes())?,
            header: copied(alloc, header)?,
        })
    }
}

/// Whether a call where the header lies left the same.
fn is_same(left: &Left, there: &Option<Left>) -> bool {
    match there {
        Some(there) => {
            left.served == there.served
                && left.original == there.original
                && left.frame.as_slice() == there.frame.as_slice()
                && left.header.as_slice() == there.header.as_slice()
        }
        None => false,
    }
}

/// What a call left where the header lies, in a word where it is the same.
fn show_there<R: Print>(rt: &R, left: &Left, there: Option<Left>) -> io::Result<()> {
    if is_same(left, &there) {
        println!(rt; "  in place the same")?;
        return Ok(());
    }
    match there {
        Some(there) => println!(rt;
            "  in place {} {}",
            FrameLine(&there),
            Digits(&there.header)
        )?,
        None => println!(rt; "  in place nothing")?,
    }
    Ok(())
}

/// The answer, the length on the wire and the captured bytes.
#[derive(Drop)]
struct FrameLine<'a>(&'a Left);

impl fmt::Display for FrameLine<'_> {
    fn fmt<W: fmt::Write>(&self, f: &mut fmt::Formatter<W>) -> fmt::Result {
        write!(
            f,
            "{:?} {} {}",
            self.0.served,
            self.0.original,
            Digits(&self.0.frame)
        )
    }
}
