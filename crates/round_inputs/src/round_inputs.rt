ghost use Rattle.std.specs.Prelude.{◌≡◌, ◌+◌, ◌^◌, ◌<◌, ◌≤◌, ℕ, true, List as Sequence, [], IfOk, OnOk, Err, Option, length};
ghost use Rattle.sfc_desk.specs.declared.ports.Port.{Port};
ghost use Rattle.pcap_io.specs.declared.forms.Form.{Form as CaptureForm};
ghost use Rattle.control_files.specs.Segments.{numbers};
ghost use Rattle.rounds.specs.Views.{Inputs};
ghost use Rattle.round_inputs.specs.declared.halts.Halt.TheVariants as halts;
ghost use Rattle.round_inputs.specs.Halts.{Counts, IsRead, ReadsBoth};
ghost use Rattle.round_inputs.specs.Filling.{LendsNext};
ghost use Rattle.round_inputs.specs.Taking.{AreInputs, HoldsAt, IsFew};

use crate::frames_ahead::{FrameAhead, look_at_frame};
use crate::halts::Halt;
use crate::segments_ahead::{SegmentAhead, look_at_segment};
use control_files::ControlFeed;
use pcap_io::{CaptureFeed, Form};
use sfc_desk::{Desk, Port};
use std::alloc::Global;
use wire_base::List;

/// A capture and a control file between two rounds: how many frames and segments were taken, both feeds, and what stands next in each.
///
/// Clauses see where they stand in the files (`HoldsAt`).
#[derive(Debug, Drop)]
pub struct RoundInputs {
    pub(crate) place: u64,
    /// How many segments were taken.
    pub(crate) steps: u64,
    pub(crate) capture: CaptureFeed,
    pub(crate) frame: FrameAhead,
    pub(crate) control: ControlFeed,
    pub(crate) segment: SegmentAhead,
}

impl RoundInputs {
    /// How many frames were taken.
    pub fn place(&self) -> u64
        ensures { result ≡ self.now.place }
    {
        self.place
    }

    /// The form of the capture; `None` exactly where no file header was accepted.
    pub fn form(&self) -> Option<Form>
        ensures { result ≡ self.now.capture.form }
    {
        self.capture.form()
    }
}

/// Looks at the first frame and the first segment of the bound inputs, for the peers of these numbers, each with its AS.
pub fn begin_inputs<D: Desk>(
    alloc: Global,
    desk: &mut D,
    peers: &List<(u16, u32)>,
) -> Result<RoundInputs, Halt>
    requires capture { (D.at desk.old Port.Capture).bound ≡ true }
    requires control { (D.at desk.old Port.Control).bound ≡ true }
    ensures holds { IfOk result (λ inputs. HoldsAt D.tells (D.at desk.old Port.Capture).left (D.at desk.old Port.Control).left (D.at desk.new) inputs [] []) }
    ensures form { D.tells ≡ true → IfOk result (λ inputs. (form : Option CaptureForm) (whole : Inputs)
        → AreInputs (D.at desk.old Port.Capture).left (D.at desk.old Port.Control).left form inputs.control.peers whole → form ≡ inputs.capture.form) }
    ensures long_capture { D.tells ≡ true → result ≡ Err (halts.Long Port.Capture) → 2 ^ 40 < length (D.at desk.old Port.Capture).left }
    ensures long_control { D.tells ≡ true → result ≡ Err (halts.Long Port.Control) → 2 ^ 40 < length (D.at desk.old Port.Control).left }
    ensures few { IfOk result IsFew }
    ensures lends { IfOk result (λ inputs. LendsNext inputs.frame inputs.capture) }
    ensures peers { IfOk result (λ inputs. inputs.control.peers ≡ numbers peers.now) }
    ensures counts { Counts IsRead (D.at desk.old) (D.at desk.new) result }
    ensures reads { ReadsBoth D.tells (D.held desk.old) (D.held desk.new) (D.at desk.old) (D.at desk.new) }
{
    let mut capture = CaptureFeed::new(alloc);
    let mut control = match ControlFeed::new(alloc, peers) {
        Ok(control) => control,
        Err(_) => return Err(Halt::OutOfMemory),
    };
    let frame = match look_at_frame(desk, &mut capture) {
        Ok(frame) => frame,
        Err(halt) => return Err(halt),
    };
    let segment = match look_at_segment(desk, &mut control) {
        Ok(segment) => segment,
        Err(halt) => return Err(halt),
    };
    Ok(RoundInputs {
        place: 0,
        steps: 0,
        capture,
        frame,
        control,
        segment,
    })
}
