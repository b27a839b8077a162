//! The candidates of the types that a hop names.

ghost use Rattle.std.specs.Prelude.{◌≡◌, ◌≤◌, List, nat_lt, nat_le};
ghost use Rattle.std.specs.List.{AllByRecursion};
ghost use Rattle.sfp_attribute.specs.declared.sfps.HopPart.{HopPart as PartOfHop};
ghost use Rattle.route_selection.specs.Choices.{candidates, IsFrom, IsUpTo};
ghost use Rattle.route_selection.specs.Lowest.{Ascends};
ghost use Rattle.route_selection.specs.Usable.{name_of};

use crate::candidates::Candidate;
use sfp_attribute::HopPart;

/// The lower of a type and that of a part.
fn lower_type(most: u16, part: &HopPart) -> u16
    ensures types { IsFrom result part.now }
    ensures most { result ≤ most }
{
    match part {
        HopPart::Sft { kind, .. } => { if *kind < most { *kind } else { most } }
        HopPart::Other { .. } => most,
    }
}

/// The higher of a type and that of a part.
fn higher_type(least: u16, part: &HopPart) -> u16
    ensures types { IsUpTo result part.now }
    ensures least { least ≤ result }
{
    match part {
        HopPart::Sft { kind, .. } => { if *kind > least { *kind } else { least } }
        HopPart::Other { .. } => least,
    }
}

/// The lowest of a type and those of a hop.
fn lowest_type(most: u16, inside: &[HopPart]) -> u16
    ensures types { AllByRecursion (IsFrom result) inside.now }
    ensures most { result ≤ most }
{
    match inside.split_first() {
        None => most,
        Some((part, rest)) => lowest_type(lower_type(most, part), rest),
    }
}

/// The highest of a type and those of a hop.
fn highest_type(least: u16, inside: &[HopPart]) -> u16
    ensures types { AllByRecursion (IsUpTo result) inside.now }
    ensures least { least ≤ result }
{
    match inside.split_first() {
        None => least,
        Some((part, rest)) => highest_type(higher_type(least, part), rest),
    }
}

/// The candidates from a type on, found by halves.
fn from_type(usable: &[Candidate], low: u16) -> &[Candidate]
    requires { Ascends name_of usable.now }
    ensures same { (inside : List PartOfHop) → AllByRecursion (IsFrom low) inside → candidates result.now inside ≡ candidates usable.now inside }
    ensures in_order { Ascends name_of result.now }
{
    let place = usable.partition_point(
        |candidate: &Candidate| -> bool
            ensures { result ≡ nat_lt candidate.now.kind low }
        { candidate.kind < low },
    );
    &usable[place..]
}

/// The candidates up to a type, found by halves.
fn up_to_type(usable: &[Candidate], high: u16) -> &[Candidate]
    requires { Ascends name_of usable.now }
    ensures { (inside : List PartOfHop) → AllByRecursion (IsUpTo high) inside → candidates result.now inside ≡ candidates usable.now inside }
{
    let place = usable.partition_point(
        |candidate: &Candidate| -> bool
            ensures { result ≡ nat_le candidate.now.kind high }
        { candidate.kind <= high },
    );
    &usable[..place]
}

/// The candidates of the types from the lowest to the highest of a hop: all that it names are among them.
pub(crate) fn range_for<'a>(usable: &'a [Candidate], inside: &[HopPart]) -> &'a [Candidate]
    requires { Ascends name_of usable.now }
    ensures { candidates result.now inside.now ≡ candidates usable.now inside.now }
{
    let low = lowest_type(u16::MAX, inside);
    let high = highest_type(0, inside);
    up_to_type(from_type(usable, low), high)
}
