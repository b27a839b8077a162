//! The segment that stands next in the control file.

ghost use Rattle.std.specs.Prelude.{◌≡◌, ◌+◌, ◌^◌, ◌<◌, ◌≤◌, ℕ, Bool, true, List, [], IfOk, IfErr, OnOk, IfSome, Err, MatchOption, length};
ghost use Rattle.sfc_desk.specs.Desks.{Moves};
ghost use Rattle.sfc_desk.specs.declared.ports.Port.{Port};
ghost use Rattle.control_files.specs.declared.segments.Segment.{Segment as Given};
ghost use Rattle.control_files.specs.Calls.{IsHeld};
ghost use Rattle.round_inputs.specs.declared.halts.Halt.TheVariants as halts;
ghost use Rattle.round_inputs.specs.Halts.{Counts, IsPort};
ghost use Rattle.round_inputs.specs.Reading.{SegmentsRead};
ghost use Rattle.round_inputs.specs.Ahead.{ControlAt};

use crate::halts::Halt;
use crate::reading::read_control;
use control_files::{ControlFault, ControlFeed, Refusal, Segment};
use sfc_desk::{Desk, Port};

/// What stands next in the control file.
#[derive(Debug, Drop)]
pub enum SegmentAhead {
    Segment(Segment),
    End,
    Bad(Refusal),
}

/// The next segment that is whole, or the refusal of what stands there, of the bytes at hand.
fn segment_at_hand(feed: &mut ControlFeed) -> Result<Option<SegmentAhead>, Halt>
    ensures found { (tells : Bool) (input left : List ℕ) (given : List Given) → SegmentsRead tells input left feed.old given
        → IfOk result (λ found. MatchOption found (SegmentsRead tells input left feed.new given × IsHeld feed.new)
        (λ ahead. ControlAt tells input left ahead feed.new given)) }
    ensures count { feed.new.place + length feed.new.rest ≡ feed.old.place + length feed.old.rest }
    ensures halt { IfErr result (λ halt. halt ≡ halts.OutOfMemory) }
    ensures peers { feed.new.peers ≡ feed.old.peers }
{
    match feed.next() {
        Ok(Some(segment)) => Ok(Some(SegmentAhead::Segment(segment))),
        Ok(None) => Ok(None),
        Err(ControlFault::Bad(place, reason)) => Ok(Some(SegmentAhead::Bad(Refusal {
            place,
            reason,
        }))),
        Err(ControlFault::OutOfMemory) => Err(Halt::OutOfMemory),
    }
}

/// What stands at the end of a control file of which nothing is left.
fn control_end(feed: &ControlFeed) -> Result<SegmentAhead, Halt>
    ensures ends { (tells : Bool) (input left : List ℕ) (given : List Given) → SegmentsRead tells input left feed.now given → IsHeld feed.now
        → (tells ≡ true → left ≡ []) → feed.now.place + length feed.now.rest ≤ 2 ^ 40
        → IfOk result (λ ahead. ControlAt tells input left ahead feed.now given) }
    ensures halt { IfErr result (λ halt. halt ≡ halts.OutOfMemory) }
{
    match feed.finish() {
        Ok(()) => Ok(SegmentAhead::End),
        Err(ControlFault::Bad(place, reason)) => Ok(SegmentAhead::Bad(Refusal { place, reason })),
        Err(ControlFault::OutOfMemory) => Err(Halt::OutOfMemory),
    }
}

/// Looks at the segment that stands next, and reads so many pieces as that takes.
pub(crate) fn look_at_segment<D: Desk>(
    desk: &mut D,
    feed: &mut ControlFeed,
) -> Result<SegmentAhead, Halt>
    requires bound { (D.at desk.old Port.Control).bound ≡ true }
    requires few { feed.old.place + length feed.old.rest ≤ 2 ^ 40 }
    ensures looks { (input : List ℕ) (given : List Given) → SegmentsRead D.tells input (D.at desk.old Port.Control).left feed.old given
        → IfOk result (λ ahead. ControlAt D.tells input (D.at desk.new Port.Control).left ahead feed.new given) }
    ensures long { (input : List ℕ) (given : List Given) → SegmentsRead D.tells input (D.at desk.old Port.Control).left feed.old given
        → result ≡ Err (halts.Long Port.Control) → D.tells ≡ true → 2 ^ 40 < length input }
    ensures few { OnOk result (feed.new.place + length feed.new.rest ≤ 2 ^ 40) }
    ensures peers { feed.new.peers ≡ feed.old.peers }
    ensures counts { Counts (IsPort Port.Control) (D.at desk.old) (D.at desk.new) result }
    ensures moves { Moves D.tells Port.Control (D.held desk.old) (D.held desk.new) (D.at desk.old) (D.at desk.new) }
{
    'pieces: loop {
        match segment_at_hand(feed) {
            Ok(Some(ahead)) => return Ok(ahead),
            Ok(None) => {}
            Err(halt) => return Err(halt),
        }
        match read_control(desk, feed) {
            Ok(true) => {}
            Ok(false) => return control_end(feed),
            Err(halt) => return Err(halt),
        }
    }
}
