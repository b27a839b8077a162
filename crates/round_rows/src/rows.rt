//! The rows, one after the other.

use crate::digits::push_words;
use crate::inputs::Inputs;
use crate::runs::{run_both, run_held};
use std::io;
use std::str::SplitWhitespace;
use std::sync::Wait;
use std::thread::Threads;

/// Prints the row, does what it says, and prints what it shows.
pub(crate) fn take_row<R: Print + Threads + Wait + Sync>(
    rt: &R,
    inputs: &mut Inputs,
    line: &str,
) -> io::Result<()> {
    println!(rt; "{line}")?;
    if line.starts_with('#') {
        return Ok(());
    }
    if let Some(said) = line.strip_prefix(": ") {
        return Ok(inputs.push_line(said)?);
    }
    if !take_words(rt, inputs, &mut line.split_whitespace())? {
        println!(rt; "  ?")?;
    }
    Ok(())
}

/// Does what the words say; false where they have another form.
fn take_words<R: Print + Threads + Wait + Sync>(
    rt: &R,
    inputs: &mut Inputs,
    words: &mut SplitWhitespace,
) -> io::Result<bool> {
    match words.next().unwrap_or("") {
        "capture" => Ok(push_words(&mut inputs.capture, words)?),
        "control" => Ok(push_words(&mut inputs.control, words)?),
        "both" => {
            run_both(rt, inputs)?;
            Ok(true)
        }
        "held" => held(rt, inputs, words),
        _ => Ok(false),
    }
}

fn next_number(words: &mut SplitWhitespace) -> Option<u32> {
    words.next()?.parse().ok()
}

/// `held LOOKUP VERSION DIGITS ..`
fn held<R: Print + Threads + Wait + Sync>(
    rt: &R,
    inputs: &mut Inputs,
    words: &mut SplitWhitespace,
) -> io::Result<bool> {
    let (Some(lookup), Some(version)) = (next_number(words), next_number(words)) else {
        return Ok(false);
    };
    let kept = inputs.control.len();
    let told = push_words(&mut inputs.control, words)?;
    if told {
        run_held(rt, inputs, u64::from(lookup), u64::from(version))?;
    }
    inputs.control.truncate(kept);
    Ok(told)
}
