//! The program sfc: one command of `sfc_program` over files.
//!
//! It pushes the words of the command line, hands them to `sfc_call` with a desk over files, tells
//! a status that is not Ok on standard error, with a line in words behind it, and ends with its number.
#![tactic(auto)]

mod tellings;

use sfc_desk::FileDesk;
use sfc_program::{OpenGate, Status, Words, sfc_call};
use std::fs::Files;
use std::io::{ErrorKind, Write};
use std::process::ExitCode;
use std::rt::Runtime;
use std::sync::Wait;
use std::thread::Threads;
use std::{env, fs};
use tellings::tell;

/// A file that gives nothing and, opened for reading, takes nothing.
const NO_FILE: &str = "/dev/null";

/// The words of the command line, without the program's name. A word that is no text is in no command.
fn words_of<R: Runtime + AllocGlobal>(rt: &R) -> Result<Words, Status> {
    let mut words = Words::new(rt.alloc());
    let args = match env::args(rt) {
        Ok(args) => args,
        Err(fault) if fault.kind() == ErrorKind::InvalidData => return Err(Status::Words),
        Err(_) => return Err(Status::Memory),
    };
    for word in args.skip(1) {
        if words.push(word.as_str()).is_err() {
            return Err(Status::Memory);
        }
    }
    Ok(words)
}

/// Takes the numbers of those standard streams that are closed, so that no file of a command gets one of
/// them, and a status line. What is given back keeps them.
fn fill_closed_streams<R: Files>(rt: &R) -> (Option<R::File>, Option<R::File>, Option<R::File>) {
    (
        fs::open(rt, NO_FILE).ok(),
        fs::open(rt, NO_FILE).ok(),
        fs::open(rt, NO_FILE).ok(),
    )
}

/// A desk over files and this standard output, where there is memory for it.
fn desk_of<R: Runtime + AllocGlobal, O: Drop>(rt: &R, output: O) -> Option<FileDesk<R, O>> {
    let own = rt.clone().ok()?;
    FileDesk::new(rt.alloc(), own, output).ok()
}

/// Does what the command line says.
fn run<R: Runtime + AllocGlobal + Threads + Wait + Sync, O: Write>(
    rt: &R,
    desk: &mut FileDesk<R, O>,
) -> Status {
    match words_of(rt) {
        Ok(words) => sfc_call(rt, rt.alloc(), &words, desk, &OpenGate),
        Err(status) => status,
    }
}

fn main(rt: HostRuntime) -> ExitCode {
    let _streams = fill_closed_streams(&rt);
    let mut desk = desk_of(&rt, rt.stdout());
    let status = match &mut desk {
        Some(desk) => run(&rt, desk),
        None => Status::Memory,
    };
    tell(&rt, &status, desk.as_ref());
    ExitCode::from(status.number())
}
