ghost use Rattle.std.specs.Prelude.{◌≡◌, ◌≤◌, OnOk, IfOk};
ghost use Rattle.session_machine.specs.Sides.{IsSide};
ghost use Rattle.session_machine.specs.Events.{Machine, happening};
ghost use Rattle.session_machine.specs.Courses.{Agrees, Goes, Room, bytes_in, most_after};

use crate::courses::{Course, close, come, connect, quiet_course};
use crate::events::{Effects, Event};
use crate::sides::Side;
use bgp_session::Local;
use std::alloc::Global;
use wire_base::OutOfMemory;

/// The step of a session, whatever its event.
fn happen(
    alloc: Global,
    side: &Side,
    course: &mut Course,
    event: Event<'_>,
) -> Result<Effects, OutOfMemory>
    requires side { IsSide side.now }
    requires room { Room course.old (happening event) }
    ensures step { (m : Machine) → Agrees course.old m → IfOk result (λ effects. Goes side.now m (happening event.entry) effects course.new) }
    ensures count { OnOk result (bytes_in course.new ≤ most_after (bytes_in course.old) (happening event.entry)) }
{
    match event {
        Event::Connect(moment) => connect(alloc, side, course, moment),
        Event::Bytes(moment, piece) => come(alloc, side, course, moment, piece),
        Event::Close(moment) => close(alloc, side, course, moment),
    }
}

/// The session with a peer, from the first event on (RFC 4271, section 8).
///
/// Clauses see what it stands for: the events so far, and the effects that they had (`Stands`).
#[derive(Debug, Drop)]
pub struct Session {
    alloc: Global,
    side: Side,
    course: Course,
    failed: bool,
    ghost is_side: { IsSide side },
}

impl Session {
    ghost use Rattle.std.specs.Prelude.{◌+◌, ◌<◌, ◌^◌, List, [], ◌∷◌, ◌++◌, true, false, OnErr, MatchBool};
    ghost use Rattle.std.specs.List.{AllByRecursion};
    ghost use Rattle.bgp_session.specs.LocalSide.{IsLocal};
    ghost use Rattle.sfc_routes.specs.PeerRoutes.{IsRouteChange};
    ghost use Rattle.session_machine.specs.declared.events.Effects.{Effects as Given};
    ghost use Rattle.session_machine.specs.Sides.{IsPeer, side_of};
    ghost use Rattle.session_machine.specs.Events.{Happening};
    ghost use Rattle.session_machine.specs.Sessions.{Stands, bytes_of};

    /// A session that nothing has happened to.
    pub fn new(alloc: Global, local: Local, peer: u16, peer_as: u32) -> Session
        requires local { IsLocal local }
        requires peer { IsPeer peer peer_as }
        ensures side { result.side ≡ side_of local peer peer_as }
        ensures history { Stands result [] [] }
        ensures count { bytes_of result ≡ 0 }
    {
        Session {
            alloc,
            side: Side {
                local,
                peer,
                peer_as,
            },
            course: quiet_course(alloc),
            failed: false,
        }
    }

    /// The number of the peer.
    pub fn peer(&self) -> u16
        ensures { result ≡ self.now.side.peer }
    {
        self.side.peer
    }

    /// Whether there was no memory for a step. Then the session stands for nothing, and every further step fails.
    pub fn is_failed(&self) -> bool
        ensures { result ≡ self.now.failed }
    {
        self.failed
    }

    /// Whether so many further bytes may come before the next connection.
    pub fn has_room(&self, more: usize) -> bool
        ensures { MatchBool result (bytes_of self.now + more < 2 ^ 64) (2 ^ 64 ≤ bytes_of self.now + more) }
    {
        let feed = &self.course.feed;
        let held = feed.place() + feed.rest().len() as u64;
        more as u64 <= u64::MAX - held
    }

    /// What an event leads to.
    ///
    /// A connection ends a session that was there, and an OPEN is sent. Bytes without a session are ignored. Else the timer is
    /// looked at first; then each whole message is taken in turn; then what the stream is refused for ends the session; and a
    /// KEEPALIVE is sent where a third of the hold time has passed since something was. The end of the connection ends the session.
    pub fn step(&mut self, event: Event<'_>) -> Result<Effects, OutOfMemory>
        requires { Room self.old.course (happening event) }
        ensures history { (events : List Happening) (given : List Given) → Stands self.old events given
            → IfOk result (λ effects. Stands self.new (events ++ happening event.entry ∷ []) (given ++ effects ∷ [])) }
        ensures changes { (events : List Happening) (given : List Given) → Stands self.old events given
            → IfOk result (λ effects. AllByRecursion IsRouteChange effects.changes) }
        ensures again { self.old.failed ≡ true → OnOk result ⊥ }
        ensures failed { OnErr result (self.new.failed ≡ true) }
        ensures works { OnOk result (self.new.failed ≡ false) }
        ensures side { self.new.side ≡ self.old.side }
        ensures count { OnOk result (bytes_of self.new ≤ most_after (bytes_of self.old) (happening event.entry)) }
    {
        if self.failed {
            return Err(OutOfMemory);
        }
        match happen(self.alloc, &self.side, &mut self.course, event) {
            Ok(effects) => Ok(effects),
            Err(fault) => {
                self.failed = true;
                Err(fault)
            }
        }
    }
}
