//! The segments and the frames of one round.

ghost use Rattle.std.specs.Prelude.{◌≡◌, ◌≢◌, ℕ, ◌+◌, ◌^◌, ◌<◌, ◌≤◌, Bool, true, false, List as Sequence, [], ◌∷◌, ◌++◌, length, OnOk, OnErr, IfSome, Err, Some, MatchOption};
ghost use Rattle.sfc_desk.specs.Desks.{Moves};
ghost use Rattle.sfc_desk.specs.declared.ports.Port.{Port};
ghost use Rattle.pcap_io.specs.declared.frames.Captured.{Captured};
ghost use Rattle.pcap_io.specs.declared.frames.PacketHead.{PacketHead as Head};
ghost use Rattle.pcap_io.specs.Calls.{lent_frame};
ghost use Rattle.pcap_io.specs.Fronts.{frame_of};
ghost use Rattle.control_files.specs.declared.segments.Segment.{Segment as Given};
ghost use Rattle.rounds.specs.Rounds.{is_at_cut};
ghost use Rattle.round_inputs.specs.declared.halts.Halt.TheVariants as halts;
ghost use Rattle.round_inputs.specs.Halts.{Counts, IsPort};
ghost use Rattle.round_inputs.specs.Ahead.{CaptureAt, ControlAt};
ghost use Rattle.round_inputs.specs.Filling.{are_at_cut, IsFull, IsFilled, LendsNext};

use crate::frames_ahead::{FrameAhead, look_at_frame};
use crate::halts::Halt;
use crate::segments_ahead::{SegmentAhead, look_at_segment};
use control_files::{ControlFeed, Segment};
use pcap_io::{CaptureFeed, PacketHead};
use sfc_desk::{Desk, Port};
use std::mem;
use wire_base::{List, OutOfMemory};

/// The most segments, and the most frames, of a round.
pub(crate) const ROUND: usize = 256;

/// The frames of a round, kept until they are forwarded.
pub trait FrameBuffer {
    /// The frames that it holds.
    ghost frames: { Self → Sequence Captured };

    /// Takes a frame in, behind the others, from its head and its bytes.
    fn push_lent(&mut self, head: PacketHead, bytes: &[u8]) -> Result<(), OutOfMemory>
        ensures { OnOk result (frames self.new ≡ frames self.old ++ frame_of head bytes.now ∷ []) };

    /// How many frames it holds.
    fn len(&self) -> usize
        ensures { result ≡ length (frames self.now) };
}

/// Whether the segment that stands next belongs to the cut.
fn is_next_at_cut(ahead: &SegmentAhead, place: u64, ended: bool) -> bool
    ensures at { result ≡ true → (s : Given) × (ahead.now ≡ SegmentAhead.Segment s) × (is_at_cut ended place s ≡ true) }
    ensures out { result ≡ false → (s : Given) → ahead.now ≡ SegmentAhead.Segment s → is_at_cut ended place s ≡ false }
{
    match ahead {
        SegmentAhead::Segment(segment) => {
            if ended {
                return true;
            }
            segment.position <= place
        }
        SegmentAhead::End => false,
        SegmentAhead::Bad(_) => false,
    }
}

/// The segment that stands next joins the group, and the one behind it stands next.
fn advance(
    ahead: &mut SegmentAhead,
    next: SegmentAhead,
    group: &mut List<Segment>,
) -> Result<(), Halt>
    ensures next { ahead.new ≡ next }
    ensures taken { (s : Given) → ahead.old ≡ SegmentAhead.Segment s → OnOk result (group.new ≡ group.old ++ s ∷ []) }
    ensures halt { OnErr result (result ≡ Err halts.OutOfMemory) }
{
    match mem::replace(ahead, next) {
        SegmentAhead::Segment(segment) => match group.push(segment) {
            Ok(()) => Ok(()),
            Err(_) => Err(Halt::OutOfMemory),
        },
        SegmentAhead::End => Ok(()),
        SegmentAhead::Bad(_) => Ok(()),
    }
}

/// Takes the group of segments that belong to the cut, at most 256, and looks at the segment behind it.
pub(crate) fn fill_group<D: Desk>(
    desk: &mut D,
    feed: &mut ControlFeed,
    ahead: &mut SegmentAhead,
    group: &mut List<Segment>,
    place: u64,
    ended: bool,
) -> Result<(), Halt>
    requires empty { group.old ≡ [] }
    requires bound { (D.at desk.old Port.Control).bound ≡ true }
    requires few { feed.old.place + length feed.old.rest ≤ 2 ^ 40 }
    ensures at { (input : Sequence ℕ) (history : Sequence Given) → ControlAt D.tells input (D.at desk.old Port.Control).left ahead.old feed.old history
        → OnOk result (ControlAt D.tells input (D.at desk.new Port.Control).left ahead.new feed.new (history ++ group.new)) }
    ensures long { (input : Sequence ℕ) (history : Sequence Given) → ControlAt D.tells input (D.at desk.old Port.Control).left ahead.old feed.old history
        → result ≡ Err (halts.Long Port.Control) → D.tells ≡ true → 2 ^ 40 < length input }
    ensures cut { OnOk result (are_at_cut ended place group.new ≡ true) }
    ensures full { OnOk result (IsFull ended place ahead.new group.new) }
    ensures few { OnOk result (feed.new.place + length feed.new.rest ≤ 2 ^ 40) }
    ensures peers { feed.new.peers ≡ feed.old.peers }
    ensures counts { Counts (IsPort Port.Control) (D.at desk.old) (D.at desk.new) result }
    ensures moves { Moves D.tells Port.Control (D.held desk.old) (D.held desk.new) (D.at desk.old) (D.at desk.new) }
{
    'group: while group.as_slice().len() < ROUND {
        if !is_next_at_cut(ahead, place, ended) {
            return Ok(());
        }
        let next = match look_at_segment(desk, feed) {
            Ok(next) => next,
            Err(halt) => return Err(halt),
        };
        match advance(ahead, next, group) {
            Ok(()) => {}
            Err(halt) => return Err(halt),
        }
    }
    Ok(())
}

/// The head of the frame that stands next.
fn head_of(ahead: FrameAhead) -> Option<PacketHead>
    ensures { MatchOption result ((head : Head) → ahead ≢ FrameAhead.Frame head) (λ head. ahead ≡ FrameAhead.Frame head) }
{
    match ahead {
        FrameAhead::Frame(head) => Some(head),
        FrameAhead::End => None,
        FrameAhead::Bad(_) => None,
    }
}

/// The frame that the feed lends joins the others.
fn push_frame<B: FrameBuffer>(
    feed: &CaptureFeed,
    head: PacketHead,
    buffer: &mut B,
) -> Result<(), Halt>
    requires { 16 ≤ length feed.now.lent }
    ensures taken { OnOk result (B.frames buffer.new ≡ B.frames buffer.old ++ lent_frame head feed.now ∷ []) }
    ensures halt { OnErr result (result ≡ Err halts.OutOfMemory) }
{
    match buffer.push_lent(head, &feed.packet()[16..]) {
        Ok(()) => Ok(()),
        Err(_) => Err(Halt::OutOfMemory),
    }
}

/// Takes the frames that stand next, at most `most`, and looks at the frame behind them.
pub(crate) fn fill_frames<D: Desk, B: FrameBuffer>(
    desk: &mut D,
    feed: &mut CaptureFeed,
    ahead: &mut FrameAhead,
    buffer: &mut B,
    most: usize,
) -> Result<(), Halt>
    requires empty { B.frames buffer.old ≡ [] }
    requires bound { (D.at desk.old Port.Capture).bound ≡ true }
    requires few { feed.old.place + length feed.old.rest ≤ 2 ^ 40 }
    requires lends { LendsNext ahead.old feed.old }
    ensures at { (input : Sequence ℕ) (passed : Sequence Captured) → CaptureAt D.tells input (D.at desk.old Port.Capture).left ahead.old feed.old passed
        → OnOk result (CaptureAt D.tells input (D.at desk.new Port.Capture).left ahead.new feed.new (passed ++ B.frames buffer.new)) }
    ensures long { (input : Sequence ℕ) (passed : Sequence Captured) → CaptureAt D.tells input (D.at desk.old Port.Capture).left ahead.old feed.old passed
        → result ≡ Err (halts.Long Port.Capture) → D.tells ≡ true → 2 ^ 40 < length input }
    ensures filled { OnOk result (IsFilled most ahead.new (B.frames buffer.new)) }
    ensures lends { OnOk result (LendsNext ahead.new feed.new) }
    ensures few { OnOk result (feed.new.place + length feed.new.rest ≤ 2 ^ 40) }
    ensures form { IfSome feed.old.form (λ f. feed.new.form ≡ Some f) }
    ensures counts { Counts (IsPort Port.Capture) (D.at desk.old) (D.at desk.new) result }
    ensures moves { Moves D.tells Port.Capture (D.held desk.old) (D.held desk.new) (D.at desk.old) (D.at desk.new) }
{
    'frames: while buffer.len() < most {
        let Some(head) = head_of(*ahead) else {
            return Ok(());
        };
        match push_frame(feed, head, buffer) {
            Ok(()) => {}
            Err(halt) => return Err(halt),
        }
        *ahead = match look_at_frame(desk, feed) {
            Ok(next) => next,
            Err(halt) => return Err(halt),
        };
    }
    Ok(())
}
