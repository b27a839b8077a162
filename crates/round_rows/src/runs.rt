//! Runs on threads, and what they show.

use crate::both_workers::BothWorkers;
use crate::held_lookups::HeldLookup;
use crate::inputs::Inputs;
use crate::waits::Waits;
use sfc_desk::{MemoryDesk, Port};
use sfc_program::{Gate, Status, Words, sfc_call, status_line};
use std::alloc::{AllocError, Global};
use std::io;
use std::sync::Wait;
use std::thread::Threads;
use wire_base::OutOfMemory;

/// The words of a run but the number of workers.
const WORDS: [&str; 7] = [
    "run", "setup", "capture", "control", "egress", "lines", "replies",
];

/// Want of memory, as the program ends with it.
fn memory_fault(_fault: OutOfMemory) -> AllocError {
    AllocError
}

/// The words of a run on so many workers.
fn words_of(alloc: Global, workers: &str) -> Result<Words, OutOfMemory> {
    let mut words = Words::new(alloc);
    for word in WORDS {
        words.push(word)?;
    }
    words.push(workers)?;
    Ok(words)
}

/// Runs the files on so many workers.
fn run<R: Print + Threads + Wait + Sync, G: Gate>(
    rt: &R,
    inputs: &Inputs,
    workers: &str,
    gate: &G,
) -> io::Result<()> {
    let words = words_of(inputs.alloc, workers).map_err(memory_fault)?;
    let mut desk = inputs.desk().map_err(memory_fault)?;
    let status = sfc_call(rt, inputs.alloc, &words, &mut desk, gate);
    show(rt, &status, &desk)
}

/// Prints the status and the line of each frame.
fn show<R: Print>(rt: &R, status: &Status, desk: &MemoryDesk) -> io::Result<()> {
    println!(rt; "  {} {}", status_line(status).as_str(), status.number())?;
    let Ok(lines) = str::from_utf8(desk.output(Port::Lines)) else {
        return println!(rt; "  ?");
    };
    for line in lines.lines() {
        println!(rt; "  | {line}")?;
    }
    Ok(())
}

/// Prints whether what was waited for came.
fn show_waits<R: Print>(rt: &R, waits: &Waits) -> io::Result<()> {
    if waits.were_met() {
        println!(rt; "  each wait was met")
    } else {
        println!(rt; "  a thread waited for another one in vain")
    }
}

/// Runs the files on two workers, of which each waits for the other.
pub(crate) fn run_both<R: Print + Threads + Wait + Sync>(
    rt: &R,
    inputs: &Inputs,
) -> io::Result<()> {
    let gate = BothWorkers::new();
    run(rt, inputs, "2", &gate)?;
    show_waits(rt, &gate.waits)
}

/// Runs the files on one worker, which waits between two lookups.
pub(crate) fn run_held<R: Print + Threads + Wait + Sync>(
    rt: &R,
    inputs: &Inputs,
    lookup: u64,
    version: u64,
) -> io::Result<()> {
    let gate = HeldLookup::new(lookup, version);
    run(rt, inputs, "1", &gate)?;
    show_waits(rt, &gate.waits)
}
