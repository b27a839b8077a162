//! How a session ends, and how a change of routes is taken.

ghost use Rattle.std.specs.Prelude.{◌≡◌, ◌≤◌, length, OnOk};
ghost use Rattle.session_machine.specs.Outcomes.{all_gone, with_end, ends, refuses, out_of_order, takes_change};

use crate::cores::Core;
use crate::known_routes::known_after;
use crate::spoken::say_notification;
use crate::states::State;
use sfc_routes::RouteChange;
use std::alloc::Global;
use wire_base::{List, OutOfMemory};

/// Error codes (RFC 4271, section 4.5).
pub(crate) const OPEN_MESSAGE_ERROR: u8 = 2;

pub(crate) const HOLD_TIMER_EXPIRED: u8 = 4;

const FINITE_STATE_MACHINE_ERROR: u8 = 5;

const CEASE: u8 = 6;

/// Subcodes: none in particular; of an OPEN (RFC 4271, section 6.2); of Cease (RFC 4486, section 4).
pub(crate) const UNSPECIFIC: u8 = 0;

pub(crate) const BAD_PEER_AS: u8 = 2;

const MAXIMUM_PREFIXES_REACHED: u8 = 1;

/// The most routes of a peer.
const MOST_ROUTES: usize = 1024;

/// The change in which every route of the peer goes.
fn all_routes_go(alloc: Global, peer: u16) -> RouteChange
    ensures { result ≡ all_gone peer }
{
    RouteChange {
        peer,
        all: true,
        withdrawn: List::new(alloc),
        announced: List::new(alloc),
    }
}

/// Adds the change that the end of a session in this state is.
pub(crate) fn add_end(
    alloc: Global,
    peer: u16,
    state: State,
    changes: &mut List<RouteChange>,
) -> Result<(), OutOfMemory>
    ensures { OnOk result (changes.new ≡ with_end peer state changes.old) }
{
    match state {
        State::Idle => Ok(()),
        State::OpenSent => Ok(()),
        State::OpenConfirm(_) => Ok(()),
        State::Established(_) => {
            changes.push(all_routes_go(alloc, peer))?;
            Ok(())
        }
    }
}

/// Ends the session without a message.
pub(crate) fn end(alloc: Global, peer: u16, core: &mut Core) -> Result<(), OutOfMemory>
    ensures { OnOk result (core.new ≡ ends peer core.old) }
{
    add_end(alloc, peer, core.state, &mut core.changes)?;
    core.nlris.clear();
    core.state = State::Idle;
    Ok(())
}

/// Ends the session with a NOTIFICATION.
pub(crate) fn refuse(
    alloc: Global,
    peer: u16,
    core: &mut Core,
    code: u8,
    subcode: u8,
    info: &[u8],
) -> Result<(), OutOfMemory>
    requires { length info.now ≤ 2 }
    ensures { OnOk result (core.new ≡ refuses peer core.old code subcode info.now) }
{
    say_notification(alloc, &mut core.bytes, code, subcode, info)?;
    end(alloc, peer, core)
}

/// Ends the session, since a message is none of its state.
pub(crate) fn refuse_order(alloc: Global, peer: u16, core: &mut Core) -> Result<(), OutOfMemory>
    ensures { OnOk result (core.new ≡ out_of_order peer core.old) }
{
    refuse(
        alloc,
        peer,
        core,
        FINITE_STATE_MACHINE_ERROR,
        UNSPECIFIC,
        &[],
    )
}

/// Takes a change of the peer's routes, or ends the session where there would be too many.
pub(crate) fn take_change(
    alloc: Global,
    peer: u16,
    core: &mut Core,
    change: RouteChange,
) -> Result<(), OutOfMemory>
    ensures { OnOk result (core.new ≡ takes_change peer core.old change) }
{
    let after = known_after(alloc, core.nlris.as_slice(), &change)?;
    if after.as_slice().len() > MOST_ROUTES {
        return refuse(alloc, peer, core, CEASE, MAXIMUM_PREFIXES_REACHED, &[]);
    }
    core.changes.push(change)?;
    core.nlris = after;
    Ok(())
}
