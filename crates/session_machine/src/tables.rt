//! What a whole message makes of a session, by its state.

ghost use Rattle.std.specs.Prelude.{◌≡◌, OnOk};
ghost use Rattle.session_machine.specs.Tables.{hold_of, takes_open, TakesUpdate, Takes, TakesAll};

use crate::cores::Core;
use crate::outcomes::{BAD_PEER_AS, OPEN_MESSAGE_ERROR, end, refuse, refuse_order, take_change};
use crate::sides::Side;
use crate::spoken::say_keep_alive;
use crate::states::State;
use bgp_messages::{Message, Notice, Open};
use bgp_update::{UpdateFault, decode_update};
use sfc_routes::routes_of;
use std::alloc::Global;
use wire_base::OutOfMemory;

/// Microseconds in a second.
const SECOND: u64 = 1_000_000;

/// The smaller of two hold times, from seconds into microseconds; 0 where one of them is 0.
fn hold_time(own: u16, other: u16) -> u64
    ensures { result ≡ hold_of own other }
{
    u64::from(own.min(other)) * SECOND
}

/// Takes the peer's first OPEN.
fn take_open(alloc: Global, side: &Side, core: &mut Core, theirs: &Open) -> Result<(), OutOfMemory>
    ensures { OnOk result (core.new ≡ takes_open side.now core.old theirs.now) }
{
    if theirs.peer_as() != side.peer_as {
        return refuse(alloc, side.peer, core, OPEN_MESSAGE_ERROR, BAD_PEER_AS, &[]);
    }
    say_keep_alive(alloc, &mut core.bytes)?;
    core.state = State::OpenConfirm(hold_time(side.local.hold, theirs.hold));
    Ok(())
}

/// Takes the content of an UPDATE of an established session.
fn take_update(alloc: Global, peer: u16, core: &mut Core, content: &[u8]) -> Result<(), OutOfMemory>
    ensures { OnOk result (TakesUpdate peer core.old content.now core.new) }
{
    match decode_update(alloc, content) {
        Ok(update) => {
            let change = routes_of(alloc, peer, &update)?;
            take_change(alloc, peer, core, change)
        }
        Err(UpdateFault::Session(code, subcode, _)) => {
            refuse(alloc, peer, core, code, subcode, &[])
        }
        Err(UpdateFault::OutOfMemory) => Err(OutOfMemory),
    }
}

fn open_step(alloc: Global, side: &Side, core: &mut Core, theirs: &Open) -> Result<(), OutOfMemory>
    ensures { OnOk result (Takes side.now core.old (Message.Open theirs.now) core.new) }
{
    match core.state {
        State::Idle => Ok(()),
        State::OpenSent => take_open(alloc, side, core, theirs),
        State::OpenConfirm(_) => refuse_order(alloc, side.peer, core),
        State::Established(_) => refuse_order(alloc, side.peer, core),
    }
}

fn update_step(
    alloc: Global,
    side: &Side,
    core: &mut Core,
    content: &[u8],
) -> Result<(), OutOfMemory>
    ensures { OnOk result (Takes side.now core.old (Message.Update content.now) core.new) }
{
    match core.state {
        State::Idle => Ok(()),
        State::OpenSent => refuse_order(alloc, side.peer, core),
        State::OpenConfirm(_) => refuse_order(alloc, side.peer, core),
        State::Established(_) => take_update(alloc, side.peer, core, content),
    }
}

fn notification_step(
    alloc: Global,
    side: &Side,
    core: &mut Core,
    notice: &Notice,
) -> Result<(), OutOfMemory>
    ensures { OnOk result (Takes side.now core.old (Message.Notification notice.now) core.new) }
{
    match core.state {
        State::Idle => Ok(()),
        State::OpenSent => end(alloc, side.peer, core),
        State::OpenConfirm(_) => end(alloc, side.peer, core),
        State::Established(_) => end(alloc, side.peer, core),
    }
}

fn keep_alive_step(alloc: Global, side: &Side, core: &mut Core) -> Result<(), OutOfMemory>
    ensures { OnOk result (Takes side.now core.old Message.KeepAlive core.new) }
{
    match core.state {
        State::Idle => Ok(()),
        State::OpenSent => refuse_order(alloc, side.peer, core),
        State::OpenConfirm(hold) => {
            core.state = State::Established(hold);
            Ok(())
        }
        State::Established(_) => Ok(()),
    }
}

/// Takes one message.
fn take_message(
    alloc: Global,
    side: &Side,
    core: &mut Core,
    message: &Message,
) -> Result<(), OutOfMemory>
    ensures { OnOk result (Takes side.now core.old message.now core.new) }
{
    match message {
        Message::Open(open) => open_step(alloc, side, core, open),
        Message::Update(content) => update_step(alloc, side, core, content.as_slice()),
        Message::Notification(notice) => notification_step(alloc, side, core, notice),
        Message::KeepAlive => keep_alive_step(alloc, side, core),
    }
}

/// Takes messages in turn. Once the session has ended it takes none.
pub(crate) fn take_messages(
    alloc: Global,
    side: &Side,
    core: &mut Core,
    messages: &[Message],
) -> Result<(), OutOfMemory>
    ensures { OnOk result (TakesAll side.now core.old messages.now core.new) }
{
    for message in messages {
        take_message(alloc, side, core, message)?;
    }
    Ok(())
}
