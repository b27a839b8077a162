ghost use Rattle.std.specs.Prelude.{◌≡◌, ◌<◌, ◌^◌, ◌++◌, length, List as Sequence, ℕ, Contains, OnOk, IfOk};
ghost use Rattle.std.specs.List.{AllByRecursion};
ghost use Rattle.bgp_session.specs.LocalSide.{IsLocal};
ghost use Rattle.control_files.specs.Segments.{segment_bytes, segments_bytes, IsControl};
ghost use Rattle.route_texts.specs.RouteTexts.{IsRoutes};
ghost use Rattle.session_machine.specs.Sides.{IsPeer};
ghost use Rattle.announced_files.specs.Announced.{announced};

use crate::segments::announced_segments;
use bgp_session::Local;
use control_files::{Segment, SegmentHead, append_segment};
use sfc_routes::Route;
use std::alloc::Global;
use wire_base::{Bytes, List, OutOfMemory};

/// Appends a segment.
fn put_segment(file: &mut Bytes, segment: &Segment) -> Result<(), OutOfMemory>
    requires { length segment.now.bytes < 2 ^ 32 }
    ensures { OnOk result (file.new ≡ file.old ++ segment_bytes segment.now) }
{
    let bytes = segment.bytes.as_slice();
    let head = SegmentHead {
        kind: segment.kind,
        peer: segment.peer,
        moment: segment.moment,
        position: segment.position,
        length: bytes.len() as u32,
    };
    append_segment(file, head, bytes)
}

/// The file of these segments.
fn file_of(alloc: Global, segments: &[Segment]) -> Result<Bytes, OutOfMemory>
    requires { AllByRecursion (λ s. length s.bytes < 2 ^ 32) segments.now }
    ensures { IfOk result (λ file. file ≡ segments_bytes segments.now) }
{
    let mut file = Bytes::new(alloc);
    for segment in segments {
        put_segment(&mut file, segment)?;
    }
    Ok(file)
}

/// The control file by which a peer announces the routes of a text: its connection, its OPEN, a KEEPALIVE, and an UPDATE for each
/// route, all at moment 0 and position 0 (RFC 4271, sections 4.2 to 4.4; the segments are this project's own).
///
/// ```text
///  [ Connect ][ Bytes: OPEN ][ Bytes: KEEPALIVE ][ Bytes: UPDATE ][ Bytes: UPDATE ] ..
/// ```
///
/// The OPEN has the peer's AS, its number as identifier and the hold time of the local side, so that the session comes up. An
/// UPDATE has ORIGIN, AS_PATH (with LOCAL_PREF where both sides are of one AS), MP_REACH_NLRI, EXTENDED COMMUNITIES where the
/// route has targets, and SFP where it has a path.
///
/// Whatever else is heard, over this file the peer's routes are those of the text (`announced_routes_are_those_of_the_text`).
pub fn announce_file(
    alloc: Global,
    local: &Local,
    peer: u16,
    peer_as: u32,
    routes: &List<Route>,
) -> Result<Bytes, OutOfMemory>
    requires local { IsLocal local.now }
    requires peer { IsPeer peer peer_as }
    requires routes { (text : Sequence ℕ) × IsRoutes text routes.now }
    ensures file { IfOk result (λ file. file ≡ segments_bytes (announced local.now peer peer_as routes.now)) }
    ensures control { IfOk result (λ file. (peers : Sequence ℕ) → Contains peers peer → IsControl file peers (announced local.now peer peer_as routes.now)) }
{
    let segments = announced_segments(alloc, local, peer, peer_as, routes.as_slice())?;
    let file = file_of(alloc, segments.as_slice())?;
    Ok(file)
}
