//! The segments by which a peer announces and withdraws routes.

ghost use Rattle.std.specs.Prelude.{◌≡◌, [], ◌∷◌, ◌++◌, map, OnOk, IfOk, ℕ, Contains, List as Sequence};
ghost use Rattle.std.specs.List.{AllByRecursion};
ghost use Rattle.bgp_messages.specs.Messages.{Fits};
ghost use Rattle.bgp_session.specs.LocalSide.{IsLocal};
ghost use Rattle.control_files.specs.Segments.{AreSegments, start};
ghost use Rattle.session_machine.specs.Sides.{IsPeer};
ghost use Rattle.session_machine.specs.Spoken.{open_message};
ghost use Rattle.announced_files.specs.Announceable.{IsAnnounceable};
ghost use Rattle.announced_files.specs.Announcements.{announcing, withdrawing};
ghost use Rattle.announced_files.specs.Announced.{connected, said, said_at, other_side, greeting, announced};

use crate::attributes::{announcement_of, withdrawal_of};
use bgp_messages::{Message, encode_message};
use bgp_session::Local;
use bgp_update::encode_update;
use control_files::{BYTES, CONNECT, Segment};
use session_machine::opening_of;
use sfc_routes::Route;
use std::alloc::Global;
use wire_base::{Bytes, List, OutOfMemory};

/// A message of the peer at moment 0.
fn said_segment(
    alloc: Global,
    peer: u16,
    position: u64,
    message: &Message,
) -> Result<Segment, OutOfMemory>
    requires { Fits message.now }
    ensures { IfOk result (λ made. made ≡ said_at position peer message.now) }
{
    let bytes = encode_message(alloc, message)?;
    Ok(Segment {
        kind: BYTES,
        peer,
        moment: 0,
        position,
        bytes,
    })
}

/// The connection of the peer.
fn connection(alloc: Global, peer: u16) -> Segment
    ensures { result ≡ connected peer }
{
    Segment {
        kind: CONNECT,
        peer,
        moment: 0,
        position: 0,
        bytes: Bytes::new(alloc),
    }
}

/// The peer as a local side of its own.
fn other_side_of(local: &Local, peer: u16, peer_as: u32) -> Local
    ensures { result ≡ other_side local.now peer peer_as }
{
    Local {
        asn: peer_as,
        id: u32::from(peer),
        hold: local.hold,
    }
}

/// The peer's OPEN.
fn opening_segment(
    alloc: Global,
    local: &Local,
    peer: u16,
    peer_as: u32,
) -> Result<Segment, OutOfMemory>
    requires local { IsLocal local.now }
    requires peer { IsPeer peer peer_as }
    ensures { IfOk result (λ made. made ≡ said peer (open_message (other_side local.now peer peer_as))) }
{
    let opening = opening_of(alloc, &other_side_of(local, peer, peer_as))?;
    said_segment(alloc, peer, 0, &Message::Open(opening))
}

/// The connection, the peer's OPEN and a KEEPALIVE.
fn greeting_of(
    alloc: Global,
    local: &Local,
    peer: u16,
    peer_as: u32,
) -> Result<List<Segment>, OutOfMemory>
    requires local { IsLocal local.now }
    requires peer { IsPeer peer peer_as }
    ensures { IfOk result (λ made. made ≡ greeting local.now peer peer_as) }
{
    let mut segments = List::new(alloc);
    segments.push(connection(alloc, peer))?;
    segments.push(opening_segment(alloc, local, peer, peer_as)?)?;
    segments.push(said_segment(alloc, peer, 0, &Message::KeepAlive)?)?;
    Ok(segments)
}

/// The segment by which a peer of this AS announces a route to a local side of its own AS `own`, at moment 0 and behind so many frames
/// (RFC 4271, section 4.3; RFC 4760, section 3; after RFC 9015, section 3).
pub fn announcing_segment(
    alloc: Global,
    own: u32,
    peer: u16,
    peer_as: u32,
    position: u64,
    route: &Route,
) -> Result<Segment, OutOfMemory>
    requires { IsAnnounceable route.now }
    ensures { IfOk result (λ made. made ≡ said_at position peer (announcing own peer_as route.now)) }
{
    let update = announcement_of(alloc, own, peer_as, route)?;
    let content = encode_update(alloc, &update)?;
    said_segment(alloc, peer, position, &Message::Update(content))
}

/// The segment by which a peer withdraws a route, at moment 0 and behind so many frames (RFC 4760, section 4).
pub fn withdrawing_segment(
    alloc: Global,
    peer: u16,
    position: u64,
    route: &Route,
) -> Result<Segment, OutOfMemory>
    requires { IsAnnounceable route.now }
    ensures { IfOk result (λ made. made ≡ said_at position peer (withdrawing route.now)) }
{
    let update = withdrawal_of(alloc, route)?;
    let content = encode_update(alloc, &update)?;
    said_segment(alloc, peer, position, &Message::Update(content))
}

/// Appends the UPDATE of each route.
fn push_routes(
    alloc: Global,
    segments: &mut List<Segment>,
    own: u32,
    peer: u16,
    peer_as: u32,
    routes: &[Route],
) -> Result<(), OutOfMemory>
    requires { AllByRecursion IsAnnounceable routes.now }
    ensures { OnOk result (segments.new ≡ segments.old ++ map (λ r. said peer (announcing own peer_as r)) routes.now) }
{
    for route in routes {
        segments.push(announcing_segment(alloc, own, peer, peer_as, 0, route)?)?;
    }
    Ok(())
}

/// The segments by which a peer announces routes: its connection, its OPEN, a KEEPALIVE, and an UPDATE for each route, all at moment 0
/// and position 0. A file of them is a control file for any peers with this one.
pub fn announced_segments(
    alloc: Global,
    local: &Local,
    peer: u16,
    peer_as: u32,
    routes: &[Route],
) -> Result<List<Segment>, OutOfMemory>
    requires local { IsLocal local.now }
    requires peer { IsPeer peer peer_as }
    requires routes { AllByRecursion IsAnnounceable routes.now }
    ensures { IfOk result (λ made. made ≡ announced local.now peer peer_as routes.now) }
{
    let mut segments = greeting_of(alloc, local, peer, peer_as)?;
    push_routes(alloc, &mut segments, local.asn, peer, peer_as, routes)?;
    Ok(segments)
}
