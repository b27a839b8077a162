//! The rounds of frames and segments that are in memory.

ghost use Rattle.std.specs.Prelude.{◌≡◌, ◌≤◌, ◌&&◌, ◌++◌, length, map, take, IfOk, OnOk};
ghost use Rattle.std.specs.List.{All};
ghost use Rattle.pcap_io.specs.Captures.{IsWithinLimits};
ghost use Rattle.rounds.specs.Rounds.{at_cut, is_empty, round_frames, round_segments, span, wanted};
ghost use Rattle.worker_run.specs.Batches.{pushed};

use control_files::Segment;
use pcap_io::Captured;
use std::alloc::Global;
use wire_base::{List, OutOfMemory};
use worker_run::Batch;

/// The most segments of a round, and the most frames between two cuts.
const GROUP: usize = 256;

const CUT: u64 = 256;

/// How many segments, and how many frames, a round takes off the front of those that are left.
#[derive(Clone, Copy, Debug)]
pub(crate) struct RoundSize {
    pub(crate) segments: usize,
    pub(crate) frames: usize,
}

/// How many segments at the front belong to the cut at a place, at most `most`: those whose position is not above the place, or all where
/// there are no more frames.
fn count_at_cut(ended: bool, place: u64, segments: &[Segment], most: usize) -> usize
    ensures are { take result segments.now ≡ take most (at_cut ended place segments.now) }
    ensures within { result ≤ length segments.now }
{
    if most == 0 {
        return 0;
    }
    match segments.split_first() {
        None => 0,
        Some((segment, rest)) => {
            if ended || segment.position <= place {
                1 + count_at_cut(ended, place, rest, most - 1)
            } else {
                0
            }
        }
    }
}

/// How far the next cut is, where these segments are left.
fn span_to_cut(place: u64, behind: &[Segment]) -> u64
    ensures { result ≡ span place behind.now }
{
    let to_multiple = CUT - place % CUT;
    match behind.first() {
        None => to_multiple,
        Some(segment) => to_multiple.min(segment.position.saturating_sub(place)),
    }
}

/// How many frames may join the round of these segments, behind which those are left.
fn count_wanted(place: u64, group: &[Segment], behind: &[Segment]) -> u64
    ensures { result ≡ wanted place group.now behind.now }
{
    if place == 0 && !group.is_empty() {
        return 0;
    }
    span_to_cut(place, behind)
}

/// Whether no frame and no segment is left.
pub(crate) fn is_over(frames: &[Captured], segments: &[Segment]) -> bool
    ensures { result ≡ (is_empty frames.now && is_empty segments.now) }
{
    frames.is_empty() && segments.is_empty()
}

/// The next round, where these frames and segments are left and the first frame has this number.
pub(crate) fn next_round(place: u64, frames: &[Captured], segments: &[Segment]) -> RoundSize
    ensures segments { take result.segments segments.now ≡ round_segments place frames.now segments.now }
    ensures frames { take result.frames frames.now ≡ round_frames place frames.now segments.now }
    ensures few_segments { result.segments ≤ length segments.now }
    ensures few_frames { result.frames ≤ length frames.now }
{
    let grouped = count_at_cut(frames.is_empty(), place, segments, GROUP);
    let wanted = count_wanted(place, &segments[..grouped], &segments[grouped..]);
    RoundSize {
        segments: grouped,
        frames: wanted.min(frames.len() as u64) as usize,
    }
}

/// A segment with the same bytes.
fn copy_of(alloc: Global, segment: &Segment) -> Result<Segment, OutOfMemory>
    ensures { IfOk result (λ copy. copy ≡ segment.now) }
{
    Ok(Segment {
        kind: segment.kind,
        peer: segment.peer,
        moment: segment.moment,
        position: segment.position,
        bytes: segment.bytes.copy(alloc)?,
    })
}

/// Appends copies of segments.
pub(crate) fn push_segments(
    alloc: Global,
    group: &mut List<Segment>,
    segments: &[Segment],
) -> Result<(), OutOfMemory>
    ensures { OnOk result (group.new ≡ group.old ++ segments.now) }
{
    'segments: for segment in segments {
        group.push(copy_of(alloc, segment)?)?;
    }
    Ok(())
}

/// Takes frames into a batch.
pub(crate) fn push_frames(batch: &mut Batch, frames: &[Captured]) -> Result<(), OutOfMemory>
    requires { All IsWithinLimits frames.now }
    ensures { OnOk result (batch.new ≡ batch.old ++ map pushed frames.now) }
{
    'frames: for frame in frames {
        batch.push(frame)?;
    }
    Ok(())
}
