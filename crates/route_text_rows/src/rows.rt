//! A row, and what answers it.

use crate::input_texts::{bytes_of, many};
use route_texts::{RoutesFault, parse_routes, print_routes};
use sfc_routes::Route;
use std::alloc::Global;
use wire_base::{Bytes, List, OutOfMemory};

/// Appends each route.
fn push_each(alloc: Global, out: &mut Bytes, routes: &[Route]) -> Result<(), OutOfMemory> {
    for route in routes {
        let shown = format!(in alloc; "  {route:?}\n")?;
        out.push_all(shown.as_bytes())?;
    }
    Ok(())
}

/// Appends whether the routes are printed as they were read.
fn push_printed(
    alloc: Global,
    out: &mut Bytes,
    text: &[u8],
    routes: &List<Route>,
) -> Result<(), OutOfMemory> {
    let printed = print_routes(alloc, routes)?;
    if printed.as_slice() == text {
        return out.push_all(b"  printed as read\n");
    }
    out.push_all(b"  printed otherwise\n")
}

/// Appends how many routes a text spells, or its refused line.
fn push_text(alloc: Global, out: &mut Bytes, text: &[u8], each: bool) -> Result<(), OutOfMemory> {
    match parse_routes(alloc, text) {
        Ok(routes) => {
            let count = format!(in alloc; "  {} routes\n", routes.as_slice().len())?;
            out.push_all(count.as_bytes())?;
            if each {
                push_each(alloc, out, routes.as_slice())?;
            }
            push_printed(alloc, out, text, &routes)
        }
        Err(RoutesFault::Line(line)) => {
            let refused = format!(in alloc; "  line {line}\n")?;
            out.push_all(refused.as_bytes())
        }
        Err(RoutesFault::OutOfMemory) => Err(OutOfMemory),
    }
}

/// The row, and what answers it.
pub(crate) fn answer(alloc: Global, row: &str) -> Result<Bytes, OutOfMemory> {
    let mut out = Bytes::copy_of(alloc, row.as_bytes())?;
    out.push_all(b"\n")?;
    if let Some(input) = row.strip_prefix("text ") {
        let text = bytes_of(alloc, input)?;
        push_text(alloc, &mut out, text.as_slice(), true)?;
    } else if let Some(input) = row.strip_prefix("many ") {
        let text = many(alloc, input)?;
        push_text(alloc, &mut out, text.as_slice(), false)?;
    }
    Ok(out)
}
