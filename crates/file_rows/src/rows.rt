use crate::ports::port_named;
use sfc_desk::{Desk, FileDesk, Port};
use std::fs::{self, Files};
use std::io::{self, Write};
use std::str::SplitWhitespace;

/// The most bytes that one read moves.
const PIECE: usize = 4;

/// Prints a row as it stands; an empty one and a comment say nothing.
pub(crate) fn print_row(rt: &impl Print, row: &str) -> io::Result<()> {
    if row.is_empty() || row.starts_with('#') {
        return Ok(());
    }
    println!(rt; "{row}")
}

/// Binds the port.
fn bind<D: Desk>(desk: &mut D, port: Port, name: &str) -> &'static str {
    if port == Port::Report {
        return "no bind";
    }
    match desk.bind(port, name) {
        Ok(()) => "bound",
        Err(_) => "bind failed",
    }
}

/// Binds an output and writes the bytes.
fn bind_and_write<D: Desk>(desk: &mut D, port: Port, name: &str, bytes: &[u8]) -> &'static str {
    if port == Port::Report || port.is_input() {
        return "no output";
    }
    if desk.bind(port, name).is_err() {
        return "bind failed";
    }
    match desk.write(port, bytes) {
        Ok(count) if count == bytes.len() => "written",
        Ok(_) => "a part written",
        Err(_) => "write failed",
    }
}

/// Binds an input and reads a piece, and one more.
fn bind_and_read<D: Desk>(
    desk: &mut D,
    port: Port,
    name: &str,
    into: &mut [u8; PIECE],
) -> Option<(usize, usize)> {
    if !port.is_input() {
        return None;
    }
    if port == Port::Report {
        return None;
    }
    if desk.bind(port, name).is_err() {
        return None;
    }
    let mut behind = [0u8; PIECE];
    let Ok(first) = desk.read(port, into) else {
        return None;
    };
    let Ok(second) = desk.read(port, &mut behind) else {
        return None;
    };
    Some((first, second))
}

/// `read PORT NAME`
fn show_read<R: Print, D: Desk>(rt: &R, desk: &mut D, port: Port, name: &str) -> io::Result<()> {
    let mut into = [0u8; PIECE];
    match bind_and_read(desk, port, name, &mut into) {
        Some((first, second)) => println!(rt; "  {first} bytes {into:?}, and then {second}"),
        None => println!(rt; "  read failed"),
    }
}

/// A row on a port: `bind`, `write`, `read`. False where it is none.
fn show_call<R: Print, D: Desk>(
    rt: &R,
    desk: &mut D,
    call: &str,
    words: &mut SplitWhitespace,
) -> io::Result<bool> {
    let Some(port) = words.next().and_then(port_named) else {
        return Ok(false);
    };
    let Some(name) = words.next() else {
        return Ok(false);
    };
    match call {
        "bind" => println!(rt; "  {}", bind(desk, port, name))?,
        "read" => show_read(rt, desk, port, name)?,
        "write" => {
            let word = words.next().unwrap_or("");
            println!(rt; "  {}", bind_and_write(desk, port, name, word.as_bytes()))?;
        }
        _ => return Ok(false),
    }
    Ok(true)
}

/// A row on a file itself: `link`, `size`, `remove`. False where it is none.
fn show_file<R: Files + Print>(
    rt: &R,
    call: &str,
    words: &mut SplitWhitespace,
) -> io::Result<bool> {
    let Some(name) = words.next() else {
        return Ok(false);
    };
    match call {
        "size" => println!(rt; "  {}", fs::metadata(rt, name)?.len())?,
        "remove" => fs::remove_file(rt, name)?,
        "link" => fs::hard_link(rt, name, words.next().unwrap_or(""))?,
        _ => return Ok(false),
    }
    Ok(true)
}

/// Does what a row says, and prints what it shows.
pub(crate) fn show<R: Files + Print, O: Write>(
    rt: &R,
    desk: &mut FileDesk<R, O>,
    row: &str,
) -> io::Result<()> {
    let mut words = row.split_whitespace();
    let Some(call) = words.next() else {
        return Ok(());
    };
    if call.starts_with('#') {
        return Ok(());
    }
    let known = match call {
        "link" | "size" | "remove" => show_file(rt, call, &mut words)?,
        _ => show_call(rt, desk, call, &mut words)?,
    };
    if known {
        return Ok(());
    }
    println!(rt; "  ?")
}
