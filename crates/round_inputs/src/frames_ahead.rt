//! The frame that stands next in the capture.

ghost use Rattle.std.specs.Prelude.{◌≡◌, ◌+◌, ◌^◌, ◌<◌, ◌≤◌, ℕ, Bool, true, List, [], IfOk, IfErr, OnOk, IfSome, Err, Some, MatchOption, length};
ghost use Rattle.sfc_desk.specs.Desks.{Moves};
ghost use Rattle.sfc_desk.specs.declared.ports.Port.{Port};
ghost use Rattle.pcap_io.specs.declared.frames.Captured.{Captured};
ghost use Rattle.pcap_io.specs.Calls.{HeldIn};
ghost use Rattle.round_inputs.specs.declared.halts.Halt.TheVariants as halts;
ghost use Rattle.round_inputs.specs.Halts.{Counts, IsPort};
ghost use Rattle.round_inputs.specs.Reading.{FramesRead};
ghost use Rattle.round_inputs.specs.Ahead.{CaptureAt};
ghost use Rattle.round_inputs.specs.Filling.{LendsNext};

use crate::halts::Halt;
use crate::reading::read_capture;
use pcap_io::{CaptureFault, CaptureFeed, PacketHead, Refusal};
use sfc_desk::{Desk, Port};

/// What stands next in the capture. The feed lends the frame with this head.
#[derive(Clone, Copy, Debug, PartialEq, Eq)]
pub enum FrameAhead {
    Frame(PacketHead),
    End,
    Bad(Refusal),
}

/// The next frame that is whole, or the refusal of what stands there, of the bytes at hand.
fn frame_at_hand(feed: &mut CaptureFeed) -> Option<FrameAhead>
    ensures found { (tells : Bool) (input left : List ℕ) (given : List Captured) → FramesRead tells input left feed.old given
        → MatchOption result (FramesRead tells input left feed.new given × HeldIn feed.new.form feed.new.rest)
        (λ ahead. CaptureAt tells input left ahead feed.new given) }
    ensures count { feed.new.place + length feed.new.rest ≡ feed.old.place + length feed.old.rest }
    ensures lends { IfSome result (λ ahead. LendsNext ahead feed.new) }
    ensures form { IfSome feed.old.form (λ f. feed.new.form ≡ Some f) }
{
    match feed.next_packet() {
        Ok(Some(head)) => Some(FrameAhead::Frame(head)),
        Ok(None) => None,
        Err(refusal) => Some(FrameAhead::Bad(refusal)),
    }
}

/// What stands at the end of a capture of which nothing is left.
fn capture_end(feed: &CaptureFeed) -> Result<FrameAhead, Halt>
    ensures ends { (tells : Bool) (input left : List ℕ) (given : List Captured) → FramesRead tells input left feed.now given → HeldIn feed.now.form feed.now.rest
        → (tells ≡ true → left ≡ []) → feed.now.place + length feed.now.rest ≤ 2 ^ 40
        → IfOk result (λ ahead. CaptureAt tells input left ahead feed.now given) }
    ensures lends { IfOk result (λ ahead. LendsNext ahead feed.now) }
    ensures halt { IfErr result (λ halt. halt ≡ halts.OutOfMemory) }
{
    match feed.finish() {
        Ok(()) => Ok(FrameAhead::End),
        Err(CaptureFault::Bad(place, reason)) => Ok(FrameAhead::Bad(Refusal { place, reason })),
        Err(CaptureFault::OutOfMemory) => Err(Halt::OutOfMemory),
    }
}

/// Looks at the frame that stands next, and reads so many pieces as that takes. What was lent before is given up.
pub(crate) fn look_at_frame<D: Desk>(
    desk: &mut D,
    feed: &mut CaptureFeed,
) -> Result<FrameAhead, Halt>
    requires bound { (D.at desk.old Port.Capture).bound ≡ true }
    requires few { feed.old.place + length feed.old.rest ≤ 2 ^ 40 }
    ensures looks { (input : List ℕ) (given : List Captured) → FramesRead D.tells input (D.at desk.old Port.Capture).left feed.old given
        → IfOk result (λ ahead. CaptureAt D.tells input (D.at desk.new Port.Capture).left ahead feed.new given) }
    ensures long { (input : List ℕ) (given : List Captured) → FramesRead D.tells input (D.at desk.old Port.Capture).left feed.old given
        → result ≡ Err (halts.Long Port.Capture) → D.tells ≡ true → 2 ^ 40 < length input }
    ensures few { OnOk result (feed.new.place + length feed.new.rest ≤ 2 ^ 40) }
    ensures lends { IfOk result (λ ahead. LendsNext ahead feed.new) }
    ensures form { IfSome feed.old.form (λ f. feed.new.form ≡ Some f) }
    ensures counts { Counts (IsPort Port.Capture) (D.at desk.old) (D.at desk.new) result }
    ensures moves { Moves D.tells Port.Capture (D.held desk.old) (D.held desk.new) (D.at desk.old) (D.at desk.new) }
{
    'pieces: loop {
        if let Some(ahead) = frame_at_hand(feed) {
            return Ok(ahead);
        }
        match read_capture(desk, feed) {
            Ok(true) => {}
            Ok(false) => return capture_end(feed),
            Err(halt) => return Err(halt),
        }
    }
}
