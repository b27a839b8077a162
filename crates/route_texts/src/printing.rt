//! The text of routes.

ghost use Rattle.std.specs.Prelude.{ℕ, List as Sequence, ◌≡◌, ◌++◌, ◌∷◌, [], map, codes, OnOk, IfOk};
ghost use Rattle.std.specs.List.{join_with_byte, flat_map};
ghost use Rattle.std.specs.Fmt.{decimal};
ghost use Rattle.text_words.specs.Hexadecimal.{hexadecimal};
ghost use Rattle.text_words.specs.Addresses.{address_text};
ghost use Rattle.route_texts.specs.Printed.{digits_text, targets_text, sft_text, sfts_text, hop_text, hops_of, line_text, routes_text};
ghost use Rattle.route_texts.specs.RouteTexts.{ended, IsRoutes};

use bgp_update::Nlri;
use sfc_routes::Route;
use sfp_attribute::{HopPart, Part, Sfp};
use std::alloc::Global;
use text_words::{print_address, print_number, print_octets};
use wire_base::{Bytes, Fixed, List, NextHop, OutOfMemory};

/// Appends a mark and digits.
fn print_next_digits(out: &mut Bytes, run: &Fixed<8>) -> Result<(), OutOfMemory>
    ensures { OnOk result (out.new ≡ out.old ++ 44 ∷ hexadecimal run.now) }
{
    out.push_all(b",")?;
    print_octets(out, run.bytes())?;
    Ok(())
}

/// Appends digits, each behind a comma.
fn print_other_digits(out: &mut Bytes, runs: &[Fixed<8>]) -> Result<(), OutOfMemory>
    ensures { OnOk result (out.new ≡ out.old ++ flat_map (λ run. 44 ∷ hexadecimal run) runs.now) }
{
    for run in runs {
        print_next_digits(out, run)?;
    }
    Ok(())
}

/// Appends digits with commas between them.
fn print_digits(out: &mut Bytes, runs: &[Fixed<8>]) -> Result<(), OutOfMemory>
    ensures { OnOk result (out.new ≡ out.old ++ digits_text runs.now) }
{
    match runs.split_first() {
        None => Ok(()),
        Some((first, others)) => {
            print_octets(out, first.bytes())?;
            print_other_digits(out, others)?;
            Ok(())
        }
    }
}

/// Appends targets with commas between them, or a dash.
fn print_targets(out: &mut Bytes, targets: &[Fixed<8>]) -> Result<(), OutOfMemory>
    ensures { OnOk result (out.new ≡ out.old ++ targets_text targets.now) }
{
    if targets.is_empty() {
        return out.push_all(b"-");
    }
    print_digits(out, targets)
}

/// Appends a type, a colon and its RDs.
fn print_sft(out: &mut Bytes, part: &HopPart) -> Result<(), OutOfMemory>
    ensures { OnOk result (out.new ≡ out.old ++ sft_text part.now) }
{
    match part {
        HopPart::Sft { kind, rds } => {
            print_number(out, u64::from(*kind))?;
            out.push_all(b":")?;
            print_digits(out, rds.as_slice())?;
            Ok(())
        }
        HopPart::Other { .. } => Ok(()),
    }
}

/// Appends a semicolon and a type.
fn print_next_sft(out: &mut Bytes, part: &HopPart) -> Result<(), OutOfMemory>
    ensures { OnOk result (out.new ≡ out.old ++ 59 ∷ sft_text part.now) }
{
    out.push_all(b";")?;
    print_sft(out, part)?;
    Ok(())
}

/// Appends types, each behind a semicolon.
fn print_other_sfts(out: &mut Bytes, parts: &[HopPart]) -> Result<(), OutOfMemory>
    ensures { OnOk result (out.new ≡ out.old ++ flat_map (λ part. 59 ∷ sft_text part) parts.now) }
{
    for part in parts {
        print_next_sft(out, part)?;
    }
    Ok(())
}

/// Appends types with semicolons between them.
fn print_sfts(out: &mut Bytes, parts: &[HopPart]) -> Result<(), OutOfMemory>
    ensures { OnOk result (out.new ≡ out.old ++ sfts_text parts.now) }
{
    match parts.split_first() {
        None => Ok(()),
        Some((first, others)) => {
            print_sft(out, first)?;
            print_other_sfts(out, others)?;
            Ok(())
        }
    }
}

/// Appends a hop.
fn print_hop(out: &mut Bytes, part: &Part) -> Result<(), OutOfMemory>
    ensures { OnOk result (out.new ≡ out.old ++ hop_text part.now) }
{
    match part {
        Part::Hop { si, parts } => {
            print_number(out, u64::from(*si))?;
            out.push_all(b"=")?;
            print_sfts(out, parts.as_slice())?;
            Ok(())
        }
        _ => Ok(()),
    }
}

/// Appends a space and a hop.
fn print_next_hop(out: &mut Bytes, part: &Part) -> Result<(), OutOfMemory>
    ensures { OnOk result (out.new ≡ out.old ++ 32 ∷ hop_text part.now) }
{
    out.push_all(b" ")?;
    print_hop(out, part)?;
    Ok(())
}

/// Appends hops, each behind a space.
fn print_hops(out: &mut Bytes, parts: &[Part]) -> Result<(), OutOfMemory>
    ensures { OnOk result (out.new ≡ out.old ++ flat_map (λ part. 32 ∷ hop_text part) parts.now) }
{
    for part in parts {
        print_next_hop(out, part)?;
    }
    Ok(())
}

/// Appends the hops of a path, each behind a space, where there is a path.
fn print_path(out: &mut Bytes, path: &Option<Sfp>) -> Result<(), OutOfMemory>
    ensures { OnOk result (out.new ≡ out.old ++ flat_map (λ part. 32 ∷ hop_text part) (hops_of path.now)) }
{
    match path {
        Some(sfp) => print_hops(out, sfp.parts.as_slice()),
        None => Ok(()),
    }
}

/// Appends a first word, digits and a number, with one space between them.
fn print_head(out: &mut Bytes, word: &[u8], rd: &Fixed<8>, number: u64) -> Result<(), OutOfMemory>
    ensures { OnOk result (out.new ≡ out.old ++ (word.now ++ 32 ∷ (hexadecimal rd.now ++ 32 ∷ decimal number))) }
{
    out.push_all(word)?;
    out.push_all(b" ")?;
    print_octets(out, rd.bytes())?;
    out.push_all(b" ")?;
    print_number(out, number)?;
    Ok(())
}

/// Appends a space and an address.
fn print_next_address(out: &mut Bytes, address: &NextHop) -> Result<(), OutOfMemory>
    ensures { OnOk result (out.new ≡ out.old ++ 32 ∷ address_text address.now) }
{
    out.push_all(b" ")?;
    print_address(out, address)?;
    Ok(())
}

/// Appends a space and targets.
fn print_next_targets(out: &mut Bytes, targets: &[Fixed<8>]) -> Result<(), OutOfMemory>
    ensures { OnOk result (out.new ≡ out.old ++ 32 ∷ targets_text targets.now) }
{
    out.push_all(b" ")?;
    print_targets(out, targets)?;
    Ok(())
}

/// Appends the words of an instance route.
fn print_sfir(out: &mut Bytes, rd: &Fixed<8>, kind: u16, route: &Route) -> Result<(), OutOfMemory>
    ensures { OnOk result (out.new ≡ out.old ++ join_with_byte 32 (codes "sfir" ∷ hexadecimal rd.now ∷ decimal kind ∷ address_text route.now.next_hop
        ∷ targets_text route.now.targets ∷ [])) }
{
    print_head(out, b"sfir", rd, u64::from(kind))?;
    print_next_address(out, &route.next_hop)?;
    print_next_targets(out, route.targets.as_slice())?;
    Ok(())
}

/// Appends the words of a path route.
fn print_sfpr(out: &mut Bytes, rd: &Fixed<8>, spi: u32, route: &Route) -> Result<(), OutOfMemory>
    ensures { OnOk result (out.new ≡ out.old ++ join_with_byte 32 (codes "sfpr" ∷ hexadecimal rd.now ∷ decimal spi ∷ targets_text route.now.targets
        ∷ map hop_text (hops_of route.now.path))) }
{
    print_head(out, b"sfpr", rd, u64::from(spi))?;
    print_next_targets(out, route.targets.as_slice())?;
    print_path(out, &route.path)?;
    Ok(())
}

/// Appends the words of a route.
fn print_words(out: &mut Bytes, route: &Route) -> Result<(), OutOfMemory>
    ensures { OnOk result (out.new ≡ out.old ++ line_text route.now) }
{
    match &route.nlri {
        Nlri::Sfir { rd, kind } => print_sfir(out, rd, *kind, route),
        Nlri::Sfpr { rd, spi } => print_sfpr(out, rd, spi.number(), route),
        Nlri::Other { .. } => Ok(()),
    }
}

/// Appends the line of a route.
fn print_line(out: &mut Bytes, route: &Route) -> Result<(), OutOfMemory>
    ensures { OnOk result (out.new ≡ out.old ++ ended (line_text route.now)) }
{
    print_words(out, route)?;
    out.push_all(b"\n")?;
    Ok(())
}

/// Appends the lines of routes.
fn print_lines(out: &mut Bytes, routes: &[Route]) -> Result<(), OutOfMemory>
    ensures { OnOk result (out.new ≡ out.old ++ routes_text routes.now) }
{
    for route in routes {
        print_line(out, route)?;
    }
    Ok(())
}

/// Writes routes as their text, a line each. Where some text spells the routes, the text that is written is that one, so
/// parsing it gives the routes again. What no text can spell (a route of another type, an association) is left out.
///
/// OutOfMemory: nothing stands of the text.
pub fn print_routes(alloc: Global, routes: &List<Route>) -> Result<Bytes, OutOfMemory>
    ensures text { IfOk result (λ text. text ≡ routes_text routes.now) }
    ensures spelled { IfOk result (λ text. (origin : Sequence ℕ) → IsRoutes origin routes.now → IsRoutes text routes.now) }
{
    let mut out = Bytes::new(alloc);
    print_lines(&mut out, routes.as_slice())?;
    Ok(out)
}
