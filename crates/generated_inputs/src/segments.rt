//! The segments of generated inputs.

ghost use Rattle.std.specs.Prelude.{◌≡◌, ◌≤◌, ◌++◌, IfOk, OnOk};
ghost use Rattle.bgp_session.specs.LocalSide.{IsLocal};
ghost use Rattle.generated_inputs.specs.Segments.{change_at, changes_for, generated_segments};

use crate::routes::{firewall_route, generated_routes};
use announced_files::{announced_segments, announcing_segment, withdrawing_segment};
use bgp_session::Local;
use control_files::Segment;
use std::alloc::Global;
use wire_base::{List, OutOfMemory};

/// The peer, and its AS.
const PEER: u16 = 1;

const PEER_AS: u32 = 65_001;

/// How many frames stand between two changes.
const BETWEEN: u32 = 64;

/// The change with this number, counted from 1.
fn change_at(alloc: Global, own: u32, number: u32) -> Result<Segment, OutOfMemory>
    ensures { IfOk result (λ made. made ≡ change_at own number) }
{
    let route = firewall_route(alloc);
    let position = u64::from(BETWEEN) * u64::from(number);
    if number % 2 == 1 {
        withdrawing_segment(alloc, PEER, position, &route)
    } else {
        announcing_segment(alloc, own, PEER, PEER_AS, position, &route)
    }
}

/// Appends the changes before the frames of which there are so many.
fn push_changes(
    alloc: Global,
    segments: &mut List<Segment>,
    own: u32,
    count: u32,
) -> Result<(), OutOfMemory>
    requires { 1 ≤ count }
    ensures { OnOk result (segments.new ≡ segments.old ++ changes_for own count) }
{
    for index in 0..(count - 1) / BETWEEN {
        let change = change_at(alloc, own, index + 1)?;
        segments.push(change)?;
    }
    Ok(())
}

/// The segments for so many frames, of a peer of this local side.
pub(crate) fn generated_segments(
    alloc: Global,
    local: &Local,
    count: u32,
) -> Result<List<Segment>, OutOfMemory>
    requires local { IsLocal local.now }
    requires some { 1 ≤ count }
    ensures { IfOk result (λ segments. segments ≡ generated_segments local.now count) }
{
    let routes = generated_routes(alloc)?;
    let mut segments = announced_segments(alloc, local, PEER, PEER_AS, routes.as_slice())?;
    push_changes(alloc, &mut segments, local.asn, count)?;
    Ok(segments)
}
