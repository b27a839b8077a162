//! The words of versions and of visits: their parts with commas between them, or a dash.

ghost use Rattle.std.specs.Prelude.{◌≡◌, [], ◌∷◌, ◌++◌, map, OnOk, OnErr};
ghost use Rattle.std.specs.List.{All, flat_map};
ghost use Rattle.std.specs.Fmt.{decimal};
ghost use Rattle.text_words.specs.Reading.{Reads};
ghost use Rattle.text_words.specs.Printing.{AppendsFront};
ghost use Rattle.record_text.specs.Names.{IsInstance, instance_text};
ghost use Rattle.record_text.specs.Lists.{list_text as text_of};
ghost use Rattle.record_text.specs.Lines.{AreVersions, AreVisits};

use crate::fields::is_text;
use crate::printing::{say, say_number};
use crate::roster_names::{read_instance, roster_is_kept, say_instance};
use arrayvec::ArrayVec;
use sfc_routes::Roster;
use text_words::{Pieces, print_number, read_number};
use wire_base::{Bytes, InstanceId, OutOfMemory};

/// At most 63 versions, each a piece.
fn read_numbers(pieces: &mut Pieces) -> Option<ArrayVec<u64, 63>>
    ensures { Reads (λ v. AreVersions v.items) (λ v. map decimal v.items) pieces.old result }
{
    let mut numbers = ArrayVec::new();
    while let Some(piece) = pieces.next() {
        let Some(number) = read_number(piece, 0, u64::MAX) else {
            return None;
        };
        match numbers.try_push(number) {
            Ok(()) => {}
            Err(_) => return None,
        }
    }
    Some(numbers)
}

/// At most 63 instances of the roster, each a piece.
fn read_names(pieces: &mut Pieces, roster: &Roster) -> Option<ArrayVec<InstanceId, 63>>
    ensures { Reads (λ v. AreVisits roster.now v.items) (λ v. map (instance_text roster.now) v.items) pieces.old result }
{
    let mut instances = ArrayVec::new();
    while let Some(piece) = pieces.next() {
        let Some(id) = read_instance(piece, roster) else {
            return None;
        };
        match instances.try_push(id) {
            Ok(()) => {}
            Err(_) => return None,
        }
    }
    Some(instances)
}

/// Reads at most 63 versions.
pub(crate) fn read_versions(text: &[u8]) -> Option<ArrayVec<u64, 63>>
    ensures { Reads (λ v. AreVersions v.items) (λ v. text_of (map decimal v.items)) text.now result }
{
    if is_text(text, b"-") {
        return Some(ArrayVec::new());
    }
    let mut pieces = Pieces::of(text, b',');
    read_numbers(&mut pieces)
}

/// Reads at most 63 instances of the roster.
pub(crate) fn read_visits(text: &[u8], roster: &Roster) -> Option<ArrayVec<InstanceId, 63>>
    ensures { Reads (λ v. AreVisits roster.now v.items) (λ v. text_of (map (instance_text roster.now) v.items)) text.now result }
{
    roster_is_kept(roster);
    if is_text(text, b"-") {
        return Some(ArrayVec::new());
    }
    let mut pieces = Pieces::of(text, b',');
    read_names(&mut pieces, roster)
}

/// Appends the dash of an empty list.
fn say_none(out: &mut Bytes) -> Result<(), OutOfMemory>
    ensures ok { OnOk result (out.new ≡ out.old ++ text_of []) }
    ensures err { OnErr result (AppendsFront out.old (text_of []) out.new) }
{
    say(out, b"-")
}

/// Appends a comma and the name of an instance.
fn say_next(out: &mut Bytes, id: InstanceId, roster: &Roster) -> Result<(), OutOfMemory>
    requires { IsInstance roster.now id }
    ensures ok { OnOk result (out.new ≡ out.old ++ 44 ∷ instance_text roster.now id) }
    ensures err { OnErr result (AppendsFront out.old (44 ∷ instance_text roster.now id) out.new) }
{
    out.push_all(b",")?;
    say_instance(out, id, roster)?;
    Ok(())
}

/// Appends numbers, each behind a comma.
fn say_other_numbers(out: &mut Bytes, numbers: &[u64]) -> Result<(), OutOfMemory>
    ensures ok { OnOk result (out.new ≡ out.old ++ flat_map (λ n. 44 ∷ decimal n) numbers.now) }
    ensures err { OnErr result (AppendsFront out.old (flat_map (λ n. 44 ∷ decimal n) numbers.now) out.new) }
{
    for number in numbers {
        say_number(out, b",", *number)?;
    }
    Ok(())
}

/// Appends names of instances, each behind a comma.
fn say_other_instances(
    out: &mut Bytes,
    instances: &[InstanceId],
    roster: &Roster,
) -> Result<(), OutOfMemory>
    requires { All (IsInstance roster.now) instances.now }
    ensures ok { OnOk result (out.new ≡ out.old ++ flat_map (λ i. 44 ∷ instance_text roster.now i) instances.now) }
    ensures err { OnErr result (AppendsFront out.old (flat_map (λ i. 44 ∷ instance_text roster.now i) instances.now) out.new) }
{
    for id in instances {
        say_next(out, *id, roster)?;
    }
    Ok(())
}

/// Appends numbers with commas between them, or a dash.
pub(crate) fn say_numbers(out: &mut Bytes, numbers: &[u64]) -> Result<(), OutOfMemory>
    ensures ok { OnOk result (out.new ≡ out.old ++ text_of (map decimal numbers.now)) }
    ensures err { OnErr result (AppendsFront out.old (text_of (map decimal numbers.now)) out.new) }
{
    match numbers.split_first() {
        None => say_none(out),
        Some((first, others)) => {
            print_number(out, *first)?;
            say_other_numbers(out, others)?;
            Ok(())
        }
    }
}

/// Appends names of instances with commas between them, or a dash.
pub(crate) fn say_instances(
    out: &mut Bytes,
    instances: &[InstanceId],
    roster: &Roster,
) -> Result<(), OutOfMemory>
    requires { All (IsInstance roster.now) instances.now }
    ensures ok { OnOk result (out.new ≡ out.old ++ text_of (map (instance_text roster.now) instances.now)) }
    ensures err { OnErr result (AppendsFront out.old (text_of (map (instance_text roster.now) instances.now)) out.new) }
{
    match instances.split_first() {
        None => say_none(out),
        Some((first, others)) => {
            say_instance(out, *first, roster)?;
            say_other_instances(out, others, roster)?;
            Ok(())
        }
    }
}
