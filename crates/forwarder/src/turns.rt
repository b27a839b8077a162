//! What a turn leads to, once the table has answered.

ghost use Rattle.std.specs.Prelude.{◌≡◌, ◌≤◌, All, length};
ghost use Rattle.nsh_metadata.specs.Header.{BeginsWith, Header};
ghost use Rattle.service_functions.specs.Functions.{IsFunction};
ghost use Rattle.sfc_config.specs.Parts.{FitsMode};
ghost use Rattle.classifier.specs.Stations.{Station};
ghost use Rattle.path_selection.specs.declared.answers.Answer.TheVariants as answer;
ghost use Rattle.forwarder.specs.Walks.{functions_of, reason_of as reason_by};
ghost use Rattle.forwarder.specs.Kept.{LeadsTo, StandsAged};

use crate::hops::serve_at;
use net_frames::Frame;
use nsh_headers::set_si;
use path_selection::Answer;
use record_text::{End, Reason};
use service_functions::{Served, Why};
use sfc_config::Bound;
use wire_base::{ForwarderId, InstanceId};

/// What a turn leads to.
pub(crate) enum Next {
    /// The walk ends.
    Done(End),
    /// The packet goes to this forwarder.
    Handed(ForwarderId),
    /// This instance passed the frame, and the header has so many bytes.
    Passed(InstanceId, usize),
    /// This instance dropped the frame.
    Dropped(InstanceId, Why),
}

/// Why a frame is dropped that an instance drops.
pub(crate) fn reason_of(why: Why, instance: InstanceId) -> Reason
    ensures { result ≡ reason_by why instance }
{
    match why {
        Why::Denied => Reason::Denied(instance),
        Why::HopLimit => Reason::HopLimit(instance),
        Why::Meta => Reason::Meta(instance),
        Why::MetaFull => Reason::MetaFull(instance),
        Why::TooLong => Reason::TooLong(instance),
    }
}

/// The hop of this index is at this forwarder, by this instance.
fn take_hop(
    bounds: &[Bound],
    frame: &mut Frame,
    header: &mut [u8],
    size: usize,
    at: u8,
    forwarder: ForwarderId,
    instance: InstanceId,
) -> Next
    requires fit { All (λ b. IsFunction b.function) bounds.now }
    requires modes { All FitsMode bounds.now }
    requires spelled { (h : Header) × BeginsWith header.old h size }
    requires room { length header.old ≡ 252 }
    ensures { (s : Station) → StandsAged s forwarder frame.old header.old size
        → LeadsTo (functions_of bounds.now) s size (answer.At at forwarder instance) result frame.new header.new }
{
    // The index falls by 1 behind the instance; no row of a table has the index 0, and with it, it would stay 0.
    set_si(header, at.max(1));
    match serve_at(bounds, instance, frame, header, size) {
        (Served::Passed, end) => Next::Passed(instance, end),
        (Served::Dropped(why), _) => Next::Dropped(instance, why),
    }
}

/// What the answer of a table leads to, at a forwarder whose packet has its TTL lowered.
pub(crate) fn take_turn(
    bounds: &[Bound],
    frame: &mut Frame,
    header: &mut [u8],
    size: usize,
    forwarder: ForwarderId,
    answer: Answer,
) -> Next
    requires fit { All (λ b. IsFunction b.function) bounds.now }
    requires modes { All FitsMode bounds.now }
    requires spelled { (h : Header) × BeginsWith header.old h size }
    requires room { length header.old ≡ 252 }
    ensures { (s : Station) → StandsAged s forwarder frame.old header.old size
        → LeadsTo (functions_of bounds.now) s size answer result frame.new header.new }
{
    match answer {
        Answer::NoPath => Next::Done(End::Drop(Reason::NoPath)),
        Answer::NoInstance(at) => Next::Done(End::Drop(Reason::NoInstance(at))),
        Answer::Ended => Next::Done(End::Egress),
        Answer::At(at, other, instance) => {
            if other == forwarder {
                take_hop(bounds, frame, header, size, at, forwarder, instance)
            } else {
                set_si(header, at);
                Next::Handed(other)
            }
        }
    }
}
