//! What is kept of a session between events, and what an event makes of it.

ghost use Rattle.std.specs.Prelude.{◌≡◌, ◌+◌, ◌≤◌, ◌<◌, ◌^◌, [], length, OnOk, IfOk};
ghost use Rattle.session_machine.specs.Sides.{IsSide};
ghost use Rattle.session_machine.specs.Events.{Machine, beginning, core_of, given, connects, comes, closes};
ghost use Rattle.session_machine.specs.Timers.{later, Expired};
ghost use Rattle.session_machine.specs.Courses.{FeedIn, JudgesBy, Agrees, Goes, GoesUsing, GoesReading, GoesExpiring, bytes_in};

use crate::cores::Core;
use crate::events::Effects;
use crate::outcomes::{HOLD_TIMER_EXPIRED, UNSPECIFIC, add_end, end, refuse};
use crate::readings::read_all;
use crate::sides::Side;
use crate::spoken::say_open;
use crate::states::State;
use crate::tables::take_messages;
use crate::timers::{keep_alive, later_of};
use bgp_messages::{BgpFeed, Message, Refusal};
use std::alloc::Global;
use std::mem;
use wire_base::{Bytes, List, OutOfMemory};

/// What is kept of a session between events.
#[derive(Debug, Drop)]
pub(crate) struct Course {
    pub(crate) core: Core,
    /// The moment of the connection, or of the last event in which a whole message was read.
    pub(crate) last: u64,
    /// The moment of the last event that sent bytes.
    pub(crate) sent: u64,
    /// The stream since the connection. Without a session it is empty.
    pub(crate) feed: BgpFeed,
}

fn quiet_core(alloc: Global) -> Core
    ensures { result ≡ core_of beginning }
{
    Core {
        state: State::Idle,
        nlris: List::new(alloc),
        bytes: Bytes::new(alloc),
        changes: List::new(alloc),
    }
}

/// A session before its first event.
pub(crate) fn quiet_course(alloc: Global) -> Course
    ensures agrees { Agrees result beginning }
    ensures count { bytes_in result ≡ 0 }
{
    Course {
        core: quiet_core(alloc),
        last: 0,
        sent: 0,
        feed: BgpFeed::new(alloc),
    }
}

/// Hands out what the event has led to.
fn hand_out(alloc: Global, core: &mut Core) -> Effects
    ensures effects { result ≡ given core.old }
    ensures core { core.new ≡ record core.old { bytes = []; changes = [] } }
{
    let bytes = mem::replace(&mut core.bytes, Bytes::new(alloc));
    let changes = mem::replace(&mut core.changes, List::new(alloc));
    Effects { bytes, changes }
}

/// Gives the stream up where the session has ended.
fn let_go(alloc: Global, state: State, feed: &mut BgpFeed)
    ensures { FeedIn state feed.old feed.new }
{
    match state {
        State::Idle => *feed = BgpFeed::new(alloc),
        State::OpenSent => {}
        State::OpenConfirm(_) => {}
        State::Established(_) => {}
    }
}

/// Ends an event that read these messages.
fn leave(alloc: Global, course: &mut Course, moment: u64, read: &[Message]) -> Effects
    ensures effects { result ≡ given course.old.core }
    ensures core { course.new.core ≡ record course.old.core { bytes = []; changes = [] } }
    ensures last { course.new.last ≡ later read.now course.old.last moment }
    ensures sent { course.new.sent ≡ later course.old.core.bytes course.old.sent moment }
    ensures feed { FeedIn course.old.core.state course.old.feed course.new.feed }
{
    if !read.is_empty() {
        course.last = moment;
    }
    course.sent = later_of(course.core.bytes.as_slice(), course.sent, moment);
    let_go(alloc, course.core.state, &mut course.feed);
    hand_out(alloc, &mut course.core)
}

/// Ends the session where the stream is refused.
fn judge(
    alloc: Global,
    peer: u16,
    core: &mut Core,
    refusal: &Option<Refusal>,
) -> Result<(), OutOfMemory>
    ensures { OnOk result (JudgesBy peer refusal.now core.old core.new) }
{
    let Some(refusal) = refusal else {
        return Ok(());
    };
    let (code, subcode) = (refusal.code, refusal.subcode);
    match core.state {
        State::Idle => Ok(()),
        State::OpenSent => refuse(alloc, peer, core, code, subcode, refusal.info.as_slice()),
        State::OpenConfirm(_) => refuse(alloc, peer, core, code, subcode, refusal.info.as_slice()),
        State::Established(_) => refuse(alloc, peer, core, code, subcode, refusal.info.as_slice()),
    }
}

/// The connection is there: a session that was there ends, and the OPEN is sent.
pub(crate) fn connect(
    alloc: Global,
    side: &Side,
    course: &mut Course,
    moment: u64,
) -> Result<Effects, OutOfMemory>
    requires { IsSide side.now }
    ensures step { (m : Machine) → Agrees course.old m → IfOk result (λ effects. Goes side.now m (connects moment) effects course.new) }
    ensures count { OnOk result (bytes_in course.new ≡ 0) }
{
    add_end(
        alloc,
        side.peer,
        course.core.state,
        &mut course.core.changes,
    )?;
    say_open(alloc, &mut course.core.bytes, &side.local)?;
    let effects = hand_out(alloc, &mut course.core);
    course.core.nlris.clear();
    course.core.state = State::OpenSent;
    course.last = moment;
    course.sent = moment;
    course.feed = BgpFeed::new(alloc);
    Ok(effects)
}

/// The connection is gone: the session ends.
pub(crate) fn close(
    alloc: Global,
    side: &Side,
    course: &mut Course,
    moment: u64,
) -> Result<Effects, OutOfMemory>
    ensures step { (m : Machine) → Agrees course.old m → IfOk result (λ effects. Goes side.now m (closes moment) effects course.new) }
    ensures count { OnOk result (bytes_in course.new ≡ 0) }
{
    end(alloc, side.peer, &mut course.core)?;
    course.feed = BgpFeed::new(alloc);
    let effects = hand_out(alloc, &mut course.core);
    Ok(effects)
}

/// Takes the bytes of a session whose timer has not run out.
fn use_bytes(
    alloc: Global,
    side: &Side,
    course: &mut Course,
    moment: u64,
    piece: &[u8],
) -> Result<Effects, OutOfMemory>
    requires { bytes_in course.old + length piece.now < 2 ^ 64 }
    ensures step { (m : Machine) → Agrees course.old m → ¬ (Expired m.state m.last moment)
        → IfOk result (λ effects. GoesReading side.now m moment piece.now effects course.new) }
    ensures count { OnOk result (bytes_in course.new ≤ bytes_in course.old + length piece.now) }
{
    course.feed.push(piece)?;
    let reading = read_all(alloc, &mut course.feed)?;
    let messages = reading.messages.as_slice();
    take_messages(alloc, side, &mut course.core, messages)?;
    judge(alloc, side.peer, &mut course.core, &reading.refusal)?;
    keep_alive(alloc, &mut course.core, course.sent, moment)?;
    Ok(leave(alloc, course, moment, messages))
}

/// Ends a session whose timer has run out.
fn expire(
    alloc: Global,
    side: &Side,
    course: &mut Course,
    moment: u64,
) -> Result<Effects, OutOfMemory>
    ensures step { (m : Machine) → Agrees course.old m → Expired m.state m.last moment
        → IfOk result (λ effects. GoesExpiring side.now m moment effects course.new) }
    ensures count { OnOk result (bytes_in course.new ≡ 0) }
{
    refuse(
        alloc,
        side.peer,
        &mut course.core,
        HOLD_TIMER_EXPIRED,
        UNSPECIFIC,
        &[],
    )?;
    Ok(leave(alloc, course, moment, &[]))
}

/// Takes the bytes of a session that is there.
fn take_bytes(
    alloc: Global,
    side: &Side,
    course: &mut Course,
    moment: u64,
    piece: &[u8],
) -> Result<Effects, OutOfMemory>
    requires { bytes_in course.old + length piece.now < 2 ^ 64 }
    ensures step { (m : Machine) → Agrees course.old m → IfOk result (λ effects. GoesUsing side.now m moment piece.now effects course.new) }
    ensures count { OnOk result (bytes_in course.new ≤ bytes_in course.old + length piece.now) }
{
    if course.core.state.is_expired(course.last, moment) {
        return expire(alloc, side, course, moment);
    }
    use_bytes(alloc, side, course, moment, piece)
}

fn no_effects(alloc: Global) -> Effects
    ensures { result ≡ record { bytes = []; changes = [] } }
{
    Effects {
        bytes: Bytes::new(alloc),
        changes: List::new(alloc),
    }
}

/// Bytes came.
pub(crate) fn come(
    alloc: Global,
    side: &Side,
    course: &mut Course,
    moment: u64,
    piece: &[u8],
) -> Result<Effects, OutOfMemory>
    requires { bytes_in course.old + length piece.now < 2 ^ 64 }
    ensures step { (m : Machine) → Agrees course.old m → IfOk result (λ effects. Goes side.now m (comes moment piece.now) effects course.new) }
    ensures count { OnOk result (bytes_in course.new ≤ bytes_in course.old + length piece.now) }
{
    match course.core.state {
        State::Idle => Ok(no_effects(alloc)),
        State::OpenSent => take_bytes(alloc, side, course, moment, piece),
        State::OpenConfirm(_) => take_bytes(alloc, side, course, moment, piece),
        State::Established(_) => take_bytes(alloc, side, course, moment, piece),
    }
}
