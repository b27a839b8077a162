//! The routes of a text.

ghost use Rattle.std.specs.Prelude.{◌≡◌, ◌≢◌, ◌++◌, ◌∷◌, ◌==◌, ◌<◌, [], length, position, IfSome, MatchBool, MatchOption};
ghost use Rattle.std.specs.List.{AllByRecursion};
ghost use Rattle.route_texts.specs.RouteTexts.{IsUnbroken, ended};
ghost use Rattle.route_texts.specs.Steps.{Parses, Taken};

use crate::faults::RoutesFault;
use crate::line_text::read_line;
use crate::sizes::is_small;
use bgp_update::Nlri;
use sfc_routes::Route;
use std::alloc::Global;
use wire_base::{List, OutOfMemory};

/// The most lines of a text.
const LINES: usize = 1024;

/// Whether one of the routes has this NLRI.
fn has_nlri(routes: &[Route], nlri: &Nlri) -> bool
    ensures { MatchBool result (¬ AllByRecursion (λ q. q.nlri ≢ nlri.now) routes.now) (AllByRecursion (λ q. q.nlri ≢ nlri.now) routes.now) }
{
    for route in routes {
        if route.nlri.same(nlri) {
            return true;
        }
    }
    false
}

/// Takes a line behind some routes: false exactly where it is not taken.
fn take_line(alloc: Global, routes: &mut List<Route>, line: &[u8]) -> Result<bool, OutOfMemory>
    ensures { Taken routes.old line.now result routes.new }
{
    let Some(route) = read_line(alloc, line)? else {
        return Ok(false);
    };
    if routes.as_slice().len() >= LINES {
        return Ok(false);
    }
    if has_nlri(routes.as_slice(), &route.nlri) {
        return Ok(false);
    }
    if !is_small(&route) {
        return Ok(false);
    }
    routes.push(route)?;
    Ok(true)
}

/// The first place of a byte 0A; None where there is none.
fn place_of_end(text: &[u8]) -> Option<usize>
    ensures place { result ≡ position (λ b. b == 10) text.now }
    ensures within { IfSome result (λ place. place < length text.now) }
{
    text.iter().position(|b| *b == b'\n')
}

/// The first line without the byte 0A that ends it, and what follows. None exactly where no byte ends a line.
pub(crate) fn split_line(text: &[u8]) -> Option<(&[u8], &[u8])>
    ensures { MatchOption result (IsUnbroken text.now) (λ p. IsUnbroken p.0.now × (text.now ≡ ended p.0.now ++ p.1.now)) }
{
    match place_of_end(text) {
        Some(end) => Some((&text[..end], &text[end + 1..])),
        None => None,
    }
}

/// Reads a routes text: at most 1,024 lines, each ended by byte 0A, each `sfir RD TYPE ADDRESS TARGETS` or
/// `sfpr RD SPI TARGETS HOP ..`, no two with one NLRI, and none whose UPDATE would pass 4,096 bytes. The first line that is
/// not so is told, counted from 1.
pub fn parse_routes(alloc: Global, text: &[u8]) -> Result<List<Route>, RoutesFault>
    ensures { Parses text.now result }
{
    let mut routes = List::new(alloc);
    let mut rest = text;
    'lines: while !rest.is_empty() {
        let number = routes.as_slice().len() as u64 + 1;
        let Some((line, behind)) = split_line(rest) else {
            return Err(RoutesFault::Line(number));
        };
        if !take_line(alloc, &mut routes, line)? {
            return Err(RoutesFault::Line(number));
        }
        rest = behind;
    }
    Ok(routes)
}
