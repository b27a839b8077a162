//! When a KEEPALIVE is due.

ghost use Rattle.std.specs.Prelude.{◌≡◌, MatchBool, OnOk};
ghost use Rattle.session_machine.specs.Timers.{later, Due, Keeps};

use crate::cores::Core;
use crate::spoken::say_keep_alive;
use std::alloc::Global;
use wire_base::OutOfMemory;

/// This moment where there are bytes, else the earlier one.
pub(crate) fn later_of(bytes: &[u8], earlier: u64, moment: u64) -> u64
    ensures { result ≡ later bytes.now earlier moment }
{
    if bytes.is_empty() { earlier } else { moment }
}

/// Whether a third of the hold time has passed since bytes were sent.
fn is_due(core: &Core, sent: u64, moment: u64) -> bool
    ensures { MatchBool result (Due core.now sent moment) (¬ (Due core.now sent moment)) }
{
    let hold = core.state.hold();
    if hold == 0 {
        return false;
    }
    let sent = later_of(core.bytes.as_slice(), sent, moment);
    hold / 3 <= moment.saturating_sub(sent)
}

/// Sends a KEEPALIVE where one is due (RFC 4271, section 4.4).
pub(crate) fn keep_alive(
    alloc: Global,
    core: &mut Core,
    sent: u64,
    moment: u64,
) -> Result<(), OutOfMemory>
    ensures { OnOk result (Keeps sent moment core.old core.new) }
{
    if is_due(core, sent, moment) {
        return say_keep_alive(alloc, &mut core.bytes);
    }
    Ok(())
}
