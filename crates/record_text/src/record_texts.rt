//! A text of record lines.

ghost use Rattle.std.specs.Prelude.{◌≡◌, ◌+◌, ◌∷◌, ◌++◌, ◌==◌, length, false, MatchOption};
ghost use Rattle.std.specs.List.{All};
ghost use Rattle.record_text.specs.declared.faults.RecordsFault.TheVariants.{Line};
ghost use Rattle.record_text.specs.Records.{Parses};

use crate::faults::RecordsFault;
use crate::record_line::parse_record;
use crate::records::Record;
use crate::roster_names::roster_is_kept;
use sfc_routes::Roster;
use std::alloc::Global;
use wire_base::List;

/// The first line of a text, and what stands behind the byte 0A that ends it; None where none is there.
pub(crate) fn split_line(text: &[u8]) -> Option<(&[u8], &[u8])>
    ensures { MatchOption result (All (λ b. (b == 10) ≡ false) text.now)
        (λ s. (text.now ≡ s.0.now ++ 10 ∷ s.1.now) × All (λ b. (b == 10) ≡ false) s.0.now) }
{
    match text.iter().position(|b| *b == b'\n') {
        Some(end) => Some((&text[..end], &text[end + 1..])),
        None => None,
    }
}

/// The fault at the line behind those of some entries.
fn line_behind(entries: &List<(u64, Record)>) -> RecordsFault
    ensures { result ≡ Line (length entries.now + 1) }
{
    RecordsFault::Line(entries.as_slice().len() as u64 + 1)
}

/// Reads a text of record lines, each ended by byte 0A: the numbers and records that it spells, in order; else the first line
/// that is not in the grammar. Its time is in proportion to the text, where an instance is found by a search over all names.
pub fn parse_records(
    alloc: Global,
    text: &[u8],
    roster: &Roster,
) -> Result<List<(u64, Record)>, RecordsFault>
    ensures { Parses roster.now text.now result }
{
    roster_is_kept(roster);
    let mut entries = List::new(alloc);
    let mut rest = text;
    'lines: while !rest.is_empty() {
        let Some((line, behind)) = split_line(rest) else {
            return Err(line_behind(&entries));
        };
        let Some(entry) = parse_record(line, roster) else {
            return Err(line_behind(&entries));
        };
        match entries.push(entry) {
            Ok(()) => {}
            Err(_) => return Err(RecordsFault::OutOfMemory),
        }
        rest = behind;
    }
    Ok(entries)
}
