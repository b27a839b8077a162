ghost use Rattle.std.specs.Prelude.{◌≡◌, ◌≤◌, ◌<◌, ◌+◌, ◌^◌, length, Some};
ghost use Rattle.control_files.specs.Refusals.{head_at as head_in, is_kind as kind_is, is_peer as peer_is, is_length as length_is, kind_at, peer_at, moment_at, position_at, length_at, refusal_of};
ghost use Rattle.control_files.specs.Steps.{StepGives};

use crate::reasons::{ControlReason, Refusal};
use crate::segments::{BYTES, CLOSE, CONNECT, MAX_SEGMENT, Mark, SegmentHead};
use wire_base::{be_u16, be_u32, be_u64};

/// What the bytes at hand show of the next segment.
#[derive(Clone, Copy)]
pub(crate) enum SegmentStep {
    /// Bytes of it are still to come.
    Wait,
    Refused(Refusal),
    /// A segment with this head, all of it.
    Whole(SegmentHead),
}

/// Whether it is the number of a kind.
fn is_kind(kind: u8) -> bool
    ensures { result ≡ kind_is kind }
{
    CONNECT <= kind && kind <= CLOSE
}

/// Whether one of the peers has the number.
fn is_peer(peers: &[u16], number: u16) -> bool
    ensures { result ≡ peer_is peers.now number }
{
    peers.contains(&number)
}

/// Whether a segment of the kind may have so many bytes.
fn is_length(kind: u8, length: u32) -> bool
    ensures { result ≡ length_is kind length }
{
    length <= MAX_SEGMENT && (kind == BYTES || length == 0)
}

/// The number of the peer.
fn peer_in(bytes: &[u8]) -> u16
    requires { 3 ≤ length bytes.now }
    ensures { result ≡ peer_at bytes.now }
{
    be_u16(&bytes[1..])
}

/// The moment.
fn moment_in(bytes: &[u8]) -> u64
    requires { 11 ≤ length bytes.now }
    ensures { result ≡ moment_at bytes.now }
{
    be_u64(&bytes[3..])
}

/// The position.
fn position_in(bytes: &[u8]) -> u64
    requires { 19 ≤ length bytes.now }
    ensures { result ≡ position_at bytes.now }
{
    be_u64(&bytes[11..])
}

/// How many bytes the segment has.
fn length_in(bytes: &[u8]) -> u32
    requires { 23 ≤ length bytes.now }
    ensures { result ≡ length_at bytes.now }
{
    be_u32(&bytes[19..])
}

/// The five numbers in the first 23 bytes.
fn head_at(bytes: &[u8]) -> SegmentHead
    requires { 23 ≤ length bytes.now }
    ensures { result ≡ head_in bytes.now }
{
    SegmentHead {
        kind: bytes[0],
        peer: peer_in(bytes),
        moment: moment_in(bytes),
        position: position_in(bytes),
        length: length_in(bytes),
    }
}

/// The refusal of the field that begins so many bytes behind the segment's place.
fn refused(place: u64, at: u64, reason: ControlReason) -> Option<Refusal>
    requires { place + at < 2 ^ 64 }
    ensures { result ≡ Some (record { place = place + at; reason = reason }) }
{
    Some(Refusal {
        place: place + at,
        reason,
    })
}

/// Reads a segment field by field, up to the first one that is refused or still to come. The segment begins at the place.
#[tactic(auto, unfolding(crate::specs::Refusals::refusal_of))]
pub(crate) fn refusal_at(peers: &[u16], mark: Mark, place: u64, bytes: &[u8]) -> Option<Refusal>
    requires { place + length bytes.now < 2 ^ 64 }
    ensures { result ≡ refusal_of peers.now mark place bytes.now }
{
    if bytes.is_empty() {
        return None;
    }
    if !is_kind(bytes[0]) {
        return refused(place, 0, ControlReason::Kind);
    }
    if bytes.len() < 3 {
        return None;
    }
    if !is_peer(peers, peer_in(bytes)) {
        return refused(place, 1, ControlReason::Peer);
    }
    if bytes.len() < 11 {
        return None;
    }
    if moment_in(bytes) < mark.moment {
        return refused(place, 3, ControlReason::Moment);
    }
    if bytes.len() < 19 {
        return None;
    }
    if position_in(bytes) < mark.position {
        return refused(place, 11, ControlReason::Position);
    }
    if bytes.len() < 23 {
        return None;
    }
    if !is_length(bytes[0], length_in(bytes)) {
        return refused(place, 19, ControlReason::Length);
    }
    None
}

/// What the segment that begins at the place comes to.
pub(crate) fn segment_step(peers: &[u16], mark: Mark, place: u64, bytes: &[u8]) -> SegmentStep
    requires { place + length bytes.now < 2 ^ 64 }
    ensures { StepGives peers.now mark place bytes.now result }
{
    if let Some(refusal) = refusal_at(peers, mark, place, bytes) {
        return SegmentStep::Refused(refusal);
    }
    if bytes.len() < 23 {
        return SegmentStep::Wait;
    }
    let head = head_at(bytes);
    if bytes.len() - 23 < head.length as usize {
        return SegmentStep::Wait;
    }
    SegmentStep::Whole(head)
}
