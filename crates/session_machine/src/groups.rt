ghost use Rattle.std.specs.Prelude.{◌≡◌, ◌≢◌, [], map, All, IfOk};
ghost use Rattle.bgp_session.specs.LocalSide.{IsLocal};
ghost use Rattle.session_machine.specs.Sides.{IsPeer};
ghost use Rattle.session_machine.specs.Sessions.{Stands};
ghost use Rattle.session_machine.specs.Peers.{IsAt, HasPeer, PeersDiffer, AllHold, sides_of};

use crate::events::{Effects, Event};
use crate::machines::Session;
use bgp_session::Local;
use std::alloc::Global;
use wire_base::{List, OutOfMemory};

/// The place of the session with a peer that there is.
fn place_of(sessions: &[Session], peer: u16) -> usize
    requires { HasPeer peer sessions.now }
    ensures { IsAt peer sessions.now result }
{
    for (i, session) in sessions.iter().enumerate() {
        if session.peer() == peer {
            return i;
        }
    }
    0
}

/// The sessions with all peers, each by itself.
///
/// Clauses see what they stand for: the events of all peers so far, each with the effects that it had (`StandAll`).
#[derive(Debug, Drop)]
pub struct Sessions {
    sessions: Vec<Session>,
    failed: bool,
    ghost differ: { PeersDiffer sessions.items },
}

/// A session for each peer.
fn sessions_with(
    alloc: Global,
    local: Local,
    peers: &[(u16, u32)],
) -> Result<Vec<Session>, OutOfMemory>
    requires local { IsLocal local }
    requires peers { All (λ p. IsPeer p.0 p.1) peers.now }
    ensures sides { IfOk result (λ made. map (λ s. s.side) made.items ≡ sides_of local peers.now) }
    ensures each { IfOk result (λ made. All (λ s. Stands s [] []) made.items) }
    ensures count { IfOk result (λ made. AllHold 0 made.items) }
{
    let mut made = Vec::new(alloc);
    for peer in peers {
        made.push(Session::new(alloc, local, peer.0, peer.1))?;
    }
    Ok(made)
}

impl Sessions {
    ghost use Rattle.std.specs.Prelude.{ℕ, ◌+◌, List as Sequence, ◌∷◌, ◌++◌, Contains, true, OnOk, OnErr};
    ghost use Rattle.std.specs.List.{AllPairs, AllByRecursion};
    ghost use Rattle.sfc_routes.specs.PeerRoutes.{IsRouteChange};
    ghost use Rattle.session_machine.specs.Events.{happening};
    ghost use Rattle.session_machine.specs.Groups.{Entry, entry, StandAll};
    ghost use Rattle.session_machine.specs.Peers.{HasRoom, size_of};

    /// Sessions that nothing has happened to.
    pub fn new(
        alloc: Global,
        local: Local,
        peers: &List<(u16, u32)>,
    ) -> Result<Sessions, OutOfMemory>
        requires local { IsLocal local }
        requires peers { All (λ p. IsPeer p.0 p.1) peers.now }
        requires differ { AllPairs (λ p q. p.0 ≢ q.0) peers.now }
        ensures sides { IfOk result (λ all. map (λ s. s.side) all.sessions.items ≡ sides_of local peers.now) }
        ensures peers { IfOk result (λ all. (number : ℕ) → Contains (map (λ p. p.0) peers.now) number → HasPeer number all.sessions.items) }
        ensures history { IfOk result (λ all. StandAll all []) }
        ensures count { IfOk result (λ all. AllHold 0 all.sessions.items) }
    {
        Ok(Sessions {
            sessions: sessions_with(alloc, local, peers.as_slice())?,
            failed: false,
        })
    }

    /// Whether there was no memory for a step. Then the sessions stand for nothing, and every further step fails.
    pub fn is_failed(&self) -> bool
        ensures { result ≡ self.now.failed }
    {
        self.failed
    }

    /// What an event of a peer leads to. The sessions with other peers stay as they are.
    pub fn step(&mut self, peer: u16, event: Event<'_>) -> Result<Effects, OutOfMemory>
        requires peer { HasPeer peer self.old.sessions.items }
        requires room { HasRoom peer (happening event) self.old.sessions.items }
        ensures history { (log : Sequence Entry) → StandAll self.old log
            → IfOk result (λ effects. StandAll self.new (log ++ entry peer (happening event.entry) effects ∷ [])) }
        ensures changes { (log : Sequence Entry) → StandAll self.old log
            → IfOk result (λ effects. AllByRecursion IsRouteChange effects.changes) }
        ensures again { self.old.failed ≡ true → OnOk result ⊥ }
        ensures failed { OnErr result (self.new.failed ≡ true) }
        ensures sides { map (λ s. s.side) self.new.sessions.items ≡ map (λ s. s.side) self.old.sessions.items }
        ensures peers { (number : ℕ) → HasPeer number self.old.sessions.items → HasPeer number self.new.sessions.items }
        ensures count { (most : ℕ) → AllHold most self.old.sessions.items
            → OnOk result (AllHold (most + size_of (happening event.entry)) self.new.sessions.items) }
    {
        if self.failed {
            return Err(OutOfMemory);
        }
        let at = place_of(&self.sessions, peer);
        match self.sessions[at].step(event) {
            Ok(effects) => Ok(effects),
            Err(fault) => {
                self.failed = true;
                Err(fault)
            }
        }
    }
}
