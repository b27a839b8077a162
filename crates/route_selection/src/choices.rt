//! The row of a hop.

ghost use Rattle.std.specs.Prelude.{◌≡◌, [], ◌∷◌, ◌++◌, map, IfOk, OnOk};
ghost use Rattle.route_selection.specs.Lowest.{Ascends};
ghost use Rattle.route_selection.specs.Usable.{name_of};
ghost use Rattle.route_selection.specs.Choices.{candidates, choice_among, row_at, seat};

use crate::candidates::Candidate;
use crate::naming::is_named;
use crate::type_ranges::range_for;
use path_selection::HopRow;
use sfp_attribute::HopPart;
use std::alloc::Global;
use wire_base::{ForwarderId, InstanceId, OutOfMemory, Spi};

/// Appends the seat of a candidate that the hop names.
fn push_seat(
    seats: &mut Vec<(ForwarderId, InstanceId)>,
    inside: &[HopPart],
    candidate: &Candidate,
) -> Result<(), OutOfMemory>
    ensures { OnOk result (seats.new.items ≡ seats.old.items ++ map seat (candidates (candidate.now ∷ []) inside.now)) }
{
    if is_named(inside, candidate) {
        seats.push((candidate.forwarder, candidate.instance))?;
    }
    Ok(())
}

/// The seats of those that a hop names, in order.
fn seats_for(
    alloc: Global,
    usable: &[Candidate],
    inside: &[HopPart],
) -> Result<Vec<(ForwarderId, InstanceId)>, OutOfMemory>
    ensures { IfOk result (λ seats. seats.items ≡ map seat (candidates usable.now inside.now)) }
{
    let mut seats = Vec::new(alloc);
    for candidate in usable {
        push_seat(&mut seats, inside, candidate)?;
    }
    Ok(seats)
}

/// Of n seats number `number mod n`, counted from 0.
fn choice_among(
    number: usize,
    seats: &[(ForwarderId, InstanceId)],
) -> Option<(ForwarderId, InstanceId)>
    ensures { result ≡ choice_among number seats.now }
{
    if seats.is_empty() {
        return None;
    }
    Some(seats[number % seats.len()])
}

/// The row of a hop of a path: its candidates, and which of them serves.
pub(crate) fn row_at(
    alloc: Global,
    usable: &[Candidate],
    spi: Spi,
    si: u8,
    inside: &[HopPart],
) -> Result<HopRow, OutOfMemory>
    requires { Ascends name_of usable.now }
    ensures { IfOk result (λ row. row ≡ row_at usable.now spi si inside.now) }
{
    let seats = seats_for(alloc, range_for(usable, inside), inside)?;
    let number = spi.number() as usize + usize::from(si);
    Ok(HopRow {
        si,
        choice: choice_among(number, seats.as_slice()),
    })
}
