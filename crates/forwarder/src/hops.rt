//! A hop at this forwarder: its instance serves the frame where it lies.

ghost use Rattle.std.specs.Prelude.{◌≡◌, ◌≤◌, All, length};
ghost use Rattle.nsh_metadata.specs.Header.{BeginsWith, Header};
ghost use Rattle.service_functions.specs.Functions.{IsFunction};
ghost use Rattle.sfc_config.specs.Parts.{FitsMode};
ghost use Rattle.sfc_proxy.specs.Instances.{ServeAwareAt};
ghost use Rattle.forwarder.specs.Walks.{function_by, functions_of};

use net_frames::Frame;
use service_functions::{Function, Served};
use sfc_config::Bound;
use sfc_proxy::{aware_in_place, unaware_in_place};
use wire_base::InstanceId;

/// Serves by what is bound at an instance, and answers the bytes of the header then.
fn serve_by(bound: &Bound, frame: &mut Frame, header: &mut [u8], size: usize) -> (Served, usize)
    requires fits { IsFunction bound.now.function }
    requires mode { FitsMode bound.now }
    requires spelled { (h : Header) × BeginsWith header.old h size × (1 ≤ h.head.path.si) }
    requires room { length header.old ≡ 252 }
    ensures { ServeAwareAt bound.now.function frame.old header.old size result.0 frame.new header.new result.1 }
{
    if bound.proxy {
        return (unaware_in_place(&bound.function, frame, header), size);
    }
    aware_in_place(&bound.function, frame, header, size)
}

/// Serves by an instance, by its number. One that is not there lets the frame pass.
pub(crate) fn serve_at(
    bounds: &[Bound],
    instance: InstanceId,
    frame: &mut Frame,
    header: &mut [u8],
    size: usize,
) -> (Served, usize)
    requires fit { All (λ b. IsFunction b.function) bounds.now }
    requires modes { All FitsMode bounds.now }
    requires spelled { (h : Header) × BeginsWith header.old h size × (1 ≤ h.head.path.si) }
    requires room { length header.old ≡ 252 }
    ensures { ServeAwareAt (function_by (functions_of bounds.now) instance) frame.old header.old size result.0 frame.new header.new result.1 }
{
    let place = usize::from(instance.0);
    if place < bounds.len() {
        return serve_by(&bounds[place], frame, header, size);
    }
    aware_in_place(&Function::Pass, frame, header, size)
}
