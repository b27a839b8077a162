//! A round taken off both inputs, or the end of the run.

ghost use Rattle.std.specs.Prelude.{◌≡◌, ℕ, ◌+◌, ◌^◌, ◌<◌, ◌≤◌, true, List as Sequence, [], ◌++◌, length, IfOk, OnOk, None, Err, MatchBool};
ghost use Rattle.sfc_desk.specs.declared.ports.Port.{Port};
ghost use Rattle.pcap_io.specs.declared.frames.Captured.{Captured};
ghost use Rattle.control_files.specs.declared.segments.Segment.{Segment as Given};
ghost use Rattle.rounds.specs.Rounds.{span, wanted};
ghost use Rattle.sfc_desk.specs.Desks.{Moves};
ghost use Rattle.round_inputs.specs.declared.halts.Halt.TheVariants as halts;
ghost use Rattle.round_inputs.specs.Halts.{Counts, IsPort, IsRead, ReadsBoth};
ghost use Rattle.round_inputs.specs.Ahead.{CaptureAt, ControlAt, frames_next};
ghost use Rattle.round_inputs.specs.Filling.{AheadOf, IsFilled, IsFull, LendsNext, are_at_cut};
ghost use Rattle.round_inputs.specs.Taking.{HoldsAt, IsFew, Takes, round_of, taken_by};

use crate::filling::{FrameBuffer, ROUND, fill_frames, fill_group};
use crate::frames_ahead::FrameAhead;
use crate::halts::Halt;
use crate::round_inputs::RoundInputs;
use crate::segments_ahead::SegmentAhead;
use control_files::Segment;
use rounds::RunEnd;
use sfc_desk::{Desk, Port};
use wire_base::List;

/// Whether no frame stands next.
fn is_over(frame: FrameAhead) -> bool
    ensures { MatchBool result (frames_next frame ≡ 0) (frames_next frame ≡ 1) }
{
    match frame {
        FrameAhead::Frame(_) => false,
        FrameAhead::End => true,
        FrameAhead::Bad(_) => true,
    }
}

/// How far the next cut is.
fn span_to(place: u64, segment: &SegmentAhead) -> usize
    ensures { (rest : Sequence Given) → AheadOf segment.now rest → result ≡ span place rest }
{
    let most = ROUND - (place % 256) as usize;
    match segment {
        SegmentAhead::Segment(segment) => most.min(
            segment.position.saturating_sub(place).min(256) as usize,
        ),
        SegmentAhead::End => most,
        SegmentAhead::Bad(_) => most,
    }
}

/// How many frames may join the round with this group.
fn frames_wanted(place: u64, group: &[Segment], segment: &SegmentAhead) -> usize
    ensures { (rest : Sequence Given) → AheadOf segment.now rest → result ≡ wanted place group.now rest }
{
    if place == 0 {
        if !group.is_empty() {
            return 0;
        }
    }
    span_to(place, segment)
}

/// Whether nothing was taken.
fn is_nothing<B: FrameBuffer>(group: &[Segment], buffer: &B) -> bool
    ensures { MatchBool result ((group.now ≡ []) × (B.frames buffer.now ≡ [])) (0 < length (B.frames buffer.now) + length group.now) }
{
    if group.is_empty() {
        return buffer.len() == 0;
    }
    false
}

/// Takes the segments of the cut, at most 256.
fn take_group<D: Desk>(
    desk: &mut D,
    inputs: &mut RoundInputs,
    group: &mut List<Segment>,
    over: bool,
) -> Result<(), Halt>
    requires empty { group.old ≡ [] }
    requires bound { (D.at desk.old Port.Control).bound ≡ true }
    requires few { inputs.old.control.place + length inputs.old.control.rest ≤ 2 ^ 40 }
    ensures at { (input : Sequence ℕ) (history : Sequence Given) → ControlAt D.tells input (D.at desk.old Port.Control).left inputs.old.segment inputs.old.control history
        → OnOk result (ControlAt D.tells input (D.at desk.new Port.Control).left inputs.new.segment inputs.new.control (history ++ group.new)) }
    ensures long { (input : Sequence ℕ) (history : Sequence Given) → ControlAt D.tells input (D.at desk.old Port.Control).left inputs.old.segment inputs.old.control history
        → result ≡ Err (halts.Long Port.Control) → D.tells ≡ true → 2 ^ 40 < length input }
    ensures cut { OnOk result (are_at_cut over inputs.old.place group.new ≡ true) }
    ensures full { OnOk result (IsFull over inputs.old.place inputs.new.segment group.new) }
    ensures few { OnOk result (inputs.new.control.place + length inputs.new.control.rest ≤ 2 ^ 40) }
    ensures peers { inputs.new.control.peers ≡ inputs.old.control.peers }
    ensures place { inputs.new.place ≡ inputs.old.place }
    ensures steps { inputs.new.steps ≡ inputs.old.steps }
    ensures capture { inputs.new.capture ≡ inputs.old.capture }
    ensures frame { inputs.new.frame ≡ inputs.old.frame }
    ensures counts { Counts (IsPort Port.Control) (D.at desk.old) (D.at desk.new) result }
    ensures moves { Moves D.tells Port.Control (D.held desk.old) (D.held desk.new) (D.at desk.old) (D.at desk.new) }
{
    fill_group(
        desk,
        &mut inputs.control,
        &mut inputs.segment,
        group,
        inputs.place,
        over,
    )
}

/// Takes the frames that stand next, at most `most`.
fn take_frames<D: Desk, B: FrameBuffer>(
    desk: &mut D,
    inputs: &mut RoundInputs,
    buffer: &mut B,
    most: usize,
) -> Result<(), Halt>
    requires empty { B.frames buffer.old ≡ [] }
    requires bound { (D.at desk.old Port.Capture).bound ≡ true }
    requires few { inputs.old.capture.place + length inputs.old.capture.rest ≤ 2 ^ 40 }
    requires lends { LendsNext inputs.old.frame inputs.old.capture }
    ensures at { (input : Sequence ℕ) (passed : Sequence Captured) → CaptureAt D.tells input (D.at desk.old Port.Capture).left inputs.old.frame inputs.old.capture passed
        → OnOk result (CaptureAt D.tells input (D.at desk.new Port.Capture).left inputs.new.frame inputs.new.capture (passed ++ B.frames buffer.new)) }
    ensures long { (input : Sequence ℕ) (passed : Sequence Captured) → CaptureAt D.tells input (D.at desk.old Port.Capture).left inputs.old.frame inputs.old.capture passed
        → result ≡ Err (halts.Long Port.Capture) → D.tells ≡ true → 2 ^ 40 < length input }
    ensures filled { OnOk result (IsFilled most inputs.new.frame (B.frames buffer.new)) }
    ensures lends { OnOk result (LendsNext inputs.new.frame inputs.new.capture) }
    ensures few { OnOk result (inputs.new.capture.place + length inputs.new.capture.rest ≤ 2 ^ 40) }
    ensures place { inputs.new.place ≡ inputs.old.place }
    ensures steps { inputs.new.steps ≡ inputs.old.steps }
    ensures control { inputs.new.control ≡ inputs.old.control }
    ensures segment { inputs.new.segment ≡ inputs.old.segment }
    ensures counts { Counts (IsPort Port.Capture) (D.at desk.old) (D.at desk.new) result }
    ensures moves { Moves D.tells Port.Capture (D.held desk.old) (D.held desk.new) (D.at desk.old) (D.at desk.new) }
{
    fill_frames(desk, &mut inputs.capture, &mut inputs.frame, buffer, most)
}

/// Counts a round's frames and segments as taken.
fn count_round(inputs: &mut RoundInputs, frames: usize, segments: usize)
    requires frames { inputs.old.place + frames < 2 ^ 64 }
    requires segments { inputs.old.steps + segments < 2 ^ 64 }
    ensures place { inputs.new.place ≡ inputs.old.place + frames }
    ensures steps { inputs.new.steps ≡ inputs.old.steps + segments }
    ensures capture { inputs.new.capture ≡ inputs.old.capture }
    ensures frame { inputs.new.frame ≡ inputs.old.frame }
    ensures control { inputs.new.control ≡ inputs.old.control }
    ensures segment { inputs.new.segment ≡ inputs.old.segment }
{
    inputs.place += frames as u64;
    inputs.steps += segments as u64;
}

/// Takes the next round off both inputs, its segments into the group and its frames into the buffer, or tells how the run ends.
///
/// Both are empty before. A fault of the capture is told where it stands next, one of the control file where it stands behind the
/// segments of the cut. After an end or a halt nothing more is taken.
pub fn take_round<D: Desk, B: FrameBuffer>(
    desk: &mut D,
    inputs: &mut RoundInputs,
    buffer: &mut B,
    group: &mut List<Segment>,
) -> Result<Option<RunEnd>, Halt>
    requires group { group.old ≡ [] }
    requires buffer { B.frames buffer.old ≡ [] }
    requires capture { (D.at desk.old Port.Capture).bound ≡ true }
    requires control { (D.at desk.old Port.Control).bound ≡ true }
    requires few { IsFew inputs.old }
    requires held { (capture control : Sequence ℕ) × (passed : Sequence Captured) × (history : Sequence Given)
        × HoldsAt D.tells capture control (D.at desk.old) inputs.old passed history }
    requires lends { LendsNext inputs.old.frame inputs.old.capture }
    ensures takes { (capture control : Sequence ℕ) (passed : Sequence Captured) (history : Sequence Given)
        → HoldsAt D.tells capture control (D.at desk.old) inputs.old passed history
        → Takes D.tells capture control (D.at desk.new) inputs.new passed history (round_of group.new (B.frames buffer.new)) result }
    ensures few { IfOk result (λ end. end ≡ None → IsFew inputs.new) }
    ensures lends { IfOk result (λ end. end ≡ None → LendsNext inputs.new.frame inputs.new.capture) }
    ensures rises { IfOk result (λ end. end ≡ None → taken_by inputs.old < taken_by inputs.new) }
    ensures most { IfOk result (λ end. end ≡ None → taken_by inputs.new ≤ 2 ^ 41) }
    ensures peers { inputs.new.control.peers ≡ inputs.old.control.peers }
    ensures counts { Counts IsRead (D.at desk.old) (D.at desk.new) result }
    ensures reads { ReadsBoth D.tells (D.held desk.old) (D.held desk.new) (D.at desk.old) (D.at desk.new) }
{
    if let FrameAhead::Bad(refusal) = inputs.frame {
        return Ok(Some(RunEnd::Capture(refusal)));
    }
    let over = is_over(inputs.frame);
    match take_group(desk, inputs, group, over) {
        Ok(()) => {}
        Err(halt) => return Err(halt),
    }
    if let SegmentAhead::Bad(refusal) = &inputs.segment {
        return Ok(Some(RunEnd::Control(*refusal)));
    }
    let most = frames_wanted(inputs.place, group.as_slice(), &inputs.segment);
    match take_frames(desk, inputs, buffer, most) {
        Ok(()) => {}
        Err(halt) => return Err(halt),
    }
    if is_nothing(group.as_slice(), buffer) {
        return Ok(Some(RunEnd::Whole));
    }
    count_round(inputs, buffer.len(), group.as_slice().len());
    Ok(None)
}
