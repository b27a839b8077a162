//! How a status is printed.

use sfc_program::{Status, status_line};
use std::io;

/// Prints the line of a status and its number.
pub(crate) fn show_status<R: Print>(rt: &R, status: &Status) -> io::Result<()> {
    let line = status_line(status);
    println!(rt; "  {} {}", line.as_str(), status.number())
}
