//! The line of a record.

ghost use Rattle.std.specs.Prelude.{◌≡◌, ◌<◌, ◌^◌, ◌∷◌, ◌++◌, map, IfSome, IfOk, OnOk, OnErr, codes};
ghost use Rattle.std.specs.Fmt.{decimal};
ghost use Rattle.text_words.specs.Reading.{Reads, ReadsFirst};
ghost use Rattle.text_words.specs.Printing.{AppendsFront};
ghost use Rattle.record_text.specs.Names.{instance_text};
ghost use Rattle.record_text.specs.Lists.{list_text as text_of};
ghost use Rattle.record_text.specs.Ends.{end_text as text_of_end, EndFits};
ghost use Rattle.record_text.specs.Lines.{field, path_text, record_words, line_of, ended_line, Names, AreVersions, AreVisits, IsEntry};
ghost use Rattle.record_text.specs.Steps.{way_text};

use crate::end_text::{read_end, say_end};
use crate::fields::{is_text, next_field};
use crate::list_text::{read_versions, read_visits, say_instances, say_numbers};
use crate::printing::{say, say_number};
use crate::records::{End, Record};
use crate::roster_names::roster_is_kept;
use arrayvec::ArrayVec;
use sfc_routes::Roster;
use std::alloc::Global;
use text_words::{Pieces, print_number, read_number};
use wire_base::{Bytes, InstanceId, OutOfMemory, Spi};

/// Reads a number below 2^32.
fn read_worker(text: &[u8]) -> Option<u32>
    ensures { Reads (λ w. w < 2 ^ 32) decimal text.now result }
{
    match read_number(text, 0, 4_294_967_295) {
        Some(number) => Some(number as u32),
        None => None,
    }
}

/// Reads a service path identifier.
fn read_spi(text: &[u8]) -> Option<Spi>
    ensures { Reads (λ spi. spi < 2 ^ 24) decimal text.now result }
{
    let Some(number) = read_number(text, 0, 16_777_215) else {
        return None;
    };
    Spi::of(number as u32)
}

/// Reads a service path identifier, or a dash for no path.
fn read_path(text: &[u8]) -> Option<Option<Spi>>
    ensures { Reads (λ p. IfSome p (λ spi. spi < 2 ^ 24)) path_text text.now result }
{
    if is_text(text, b"-") {
        return Some(None);
    }
    match read_spi(text) {
        Some(spi) => Some(Some(spi)),
        None => None,
    }
}

/// Takes the first word as the worker.
fn next_worker(words: &mut Pieces) -> Option<u32>
    ensures { ReadsFirst (λ w. w < 2 ^ 32) (λ w. field (codes "worker=") (decimal w)) words.old result words.new }
{
    let Some(text) = next_field(words, b"worker=") else {
        return None;
    };
    read_worker(text)
}

/// Takes the first word as the path.
fn next_path(words: &mut Pieces) -> Option<Option<Spi>>
    ensures { ReadsFirst (λ p. IfSome p (λ spi. spi < 2 ^ 24)) (λ p. field (codes "path=") (path_text p)) words.old result words.new }
{
    let Some(text) = next_field(words, b"path=") else {
        return None;
    };
    read_path(text)
}

/// Takes the first word as the versions.
fn next_versions(words: &mut Pieces) -> Option<ArrayVec<u64, 63>>
    ensures { ReadsFirst (λ v. AreVersions v.items) (λ v. field (codes "versions=") (text_of (map decimal v.items))) words.old result words.new }
{
    let Some(text) = next_field(words, b"versions=") else {
        return None;
    };
    read_versions(text)
}

/// Takes the first word as the visits.
fn next_visits(words: &mut Pieces, roster: &Roster) -> Option<ArrayVec<InstanceId, 63>>
    ensures { ReadsFirst (λ v. AreVisits roster.now v.items) (λ v. field (codes "visits=") (text_of (map (instance_text roster.now) v.items))) words.old result words.new }
{
    let Some(text) = next_field(words, b"visits=") else {
        return None;
    };
    read_visits(text, roster)
}

/// Takes the first word as the end.
fn next_end(words: &mut Pieces, roster: &Roster) -> Option<End>
    ensures { ReadsFirst (EndFits roster.now) (λ end. field (codes "end=") (text_of_end roster.now end)) words.old result words.new }
{
    let Some(text) = next_field(words, b"end=") else {
        return None;
    };
    read_end(text, roster)
}

/// A number and a record from their words, all of them.
fn read_entry(words: &mut Pieces, roster: &Roster) -> Option<(u64, Record)>
    ensures { Reads (IsEntry roster.now) (record_words roster.now) words.old result }
{
    let Some(number) = words.next_number(0, u64::MAX) else {
        return None;
    };
    let Some(worker) = next_worker(words) else {
        return None;
    };
    let Some(path) = next_path(words) else {
        return None;
    };
    let Some(versions) = next_versions(words) else {
        return None;
    };
    let Some(visits) = next_visits(words, roster) else {
        return None;
    };
    let Some(end) = next_end(words, roster) else {
        return None;
    };
    if !words.is_done() {
        return None;
    }
    let record = Record {
        worker,
        path,
        versions,
        visits,
        end,
    };
    Some((number, record))
}

/// Reads a line, without the byte 0A that ends it: the number of the frame, below 2^64, and its record. None exactly where
/// the line spells none. It takes no memory.
pub fn parse_record(line: &[u8], roster: &Roster) -> Option<(u64, Record)>
    ensures { Reads (IsEntry roster.now) (line_of roster.now) line.now result }
{
    roster_is_kept(roster);
    let mut words = Pieces::of(line, b' ');
    read_entry(&mut words, roster)
}

/// Appends the word of the path.
fn say_path(out: &mut Bytes, path: Option<Spi>) -> Result<(), OutOfMemory>
    ensures ok { OnOk result (out.new ≡ out.old ++ (codes " path=" ++ path_text path)) }
    ensures err { OnErr result (AppendsFront out.old (codes " path=" ++ path_text path) out.new) }
{
    match path {
        None => say(out, b" path=-"),
        Some(spi) => say_number(out, b" path=", u64::from(spi.number())),
    }
}

/// Appends the word of the versions.
fn say_versions(out: &mut Bytes, versions: &[u64]) -> Result<(), OutOfMemory>
    ensures ok { OnOk result (out.new ≡ out.old ++ (codes " versions=" ++ text_of (map decimal versions.now))) }
    ensures err { OnErr result (AppendsFront out.old (codes " versions=" ++ text_of (map decimal versions.now)) out.new) }
{
    out.push_all(b" versions=")?;
    say_numbers(out, versions)?;
    Ok(())
}

/// Appends the words of the visits and of the end.
fn say_way(out: &mut Bytes, record: &Record, roster: &Roster) -> Result<(), OutOfMemory>
    requires { Names roster.now record.now }
    ensures ok { OnOk result (out.new ≡ out.old ++ way_text roster.now record.now) }
    ensures err { OnErr result (AppendsFront out.old (way_text roster.now record.now) out.new) }
{
    out.push_all(b" visits=")?;
    say_instances(out, record.visits.as_slice(), roster)?;
    out.push_all(b" end=")?;
    say_end(out, record.end, roster)?;
    out.push_all(b"\n")?;
    Ok(())
}

/// Appends the line of a frame's number and its record, with the byte 0A that ends it. Where there is no memory, a front of the line, which
/// may be nothing, was appended. The instances that the record names are of the roster. It takes no memory but that by which the buffer grows.
pub fn append_record(
    out: &mut Bytes,
    number: u64,
    entry: &Record,
    roster: &Roster,
) -> Result<(), OutOfMemory>
    requires { Names roster.now entry.now }
    ensures ok { OnOk result (out.new ≡ out.old ++ ended_line roster.now (number, entry.now)) }
    ensures err { OnErr result (AppendsFront out.old (ended_line roster.now (number, entry.now)) out.new) }
{
    print_number(out, number)?;
    say_number(out, b" worker=", u64::from(entry.worker))?;
    say_path(out, entry.path)?;
    say_versions(out, entry.versions.as_slice())?;
    say_way(out, entry, roster)?;
    Ok(())
}

/// The line of a frame's number and its record, with the byte 0A that ends it. The instances that the record names are of the roster.
pub fn print_record(
    alloc: Global,
    number: u64,
    entry: &Record,
    roster: &Roster,
) -> Result<Bytes, OutOfMemory>
    requires { Names roster.now entry.now }
    ensures { IfOk result (λ text. text ≡ ended_line roster.now (number, entry.now)) }
{
    let mut out = Bytes::new(alloc);
    append_record(&mut out, number, entry, roster)?;
    Ok(out)
}
