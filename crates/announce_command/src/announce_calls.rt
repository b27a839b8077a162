ghost use Rattle.std.specs.Prelude.{◌≡◌, ◌≢◌, [], ◌∷◌, All, Contains, MatchOption};
ghost use Rattle.sfc_desk.specs.declared.ports.Port.{Port};
ghost use Rattle.sfc_desk.specs.Desks.{Shown};
ghost use Rattle.commands.specs.Commands.{Behaves};
ghost use Rattle.commands.specs.Openings.{Opened};
ghost use Rattle.setup_inputs.specs.Setups.{setup_place};
ghost use Rattle.announce_command.specs.AnnounceCommand.{AnnounceCall, AnnounceRuns, AnnouncesAs, AnnouncesOn, announce_ports};
ghost use Rattle.announce_command.specs.AnnounceSteps.{announce_of};

use crate::announce_words::{AnnounceWords, announce_words};
use crate::made_files::announce_bound;
use commands::{SetupReason, Status, Words, open_port};
use setup_inputs::read_setup;
use sfc_config::Setup;
use sfc_desk::{Desk, Port};
use std::alloc::Global;

/// The AS of the peer with this number.
fn as_of(peers: &[(u16, u32)], peer: u16) -> Option<u32>
    ensures { MatchOption result (All (λ p. p.0 ≢ peer) peers.now) (λ asn. Contains peers.now (peer, asn)) }
{
    for entry in peers {
        if entry.0 == peer {
            return Some(entry.1);
        }
    }
    None
}

/// What `announce` does with a peer of the setup.
fn announce_as<D: Desk>(
    alloc: Global,
    desk: &mut D,
    said: &AnnounceWords<'_>,
    setup: &Setup,
    asn: u32,
) -> Status
    requires { Contains setup.now.peers (said.now.peer, asn) }
    ensures runs { (then : Port → Shown) → Opened (setup_place said.now.setup.now ∷ []) D.tells then (D.at desk.old)
        → AnnouncesAs (announce_of said.now) setup.now asn D.tells (D.held desk.old) then (D.at desk.new) result }
    ensures behaves { (then : Port → Shown) → Opened (setup_place said.now.setup.now ∷ []) D.tells then (D.at desk.old)
        → Behaves (announce_ports (announce_of said.now)) D.tells (D.held desk.old) then (D.at desk.new) result }
{
    if open_port(desk, Port::Routes, said.routes).is_err() {
        return Status::File(Port::Routes);
    }
    if open_port(desk, Port::Made, said.made).is_err() {
        return Status::File(Port::Made);
    }
    announce_bound(alloc, desk, &setup.local, said.peer, asn)
}

/// What `announce` does with the setup.
fn announce_on<D: Desk>(
    alloc: Global,
    desk: &mut D,
    said: &AnnounceWords<'_>,
    setup: &Setup,
) -> Status
    ensures runs { (then : Port → Shown) → Opened (setup_place said.now.setup.now ∷ []) D.tells then (D.at desk.old)
        → AnnouncesOn (announce_of said.now) setup.now D.tells (D.held desk.old) then (D.at desk.new) result }
    ensures behaves { (then : Port → Shown) → Opened (setup_place said.now.setup.now ∷ []) D.tells then (D.at desk.old)
        → Behaves (announce_ports (announce_of said.now)) D.tells (D.held desk.old) then (D.at desk.new) result }
{
    match as_of(setup.peers.as_slice(), said.peer) {
        Some(asn) => announce_as(alloc, desk, said, setup, asn),
        None => Status::Setup(0, SetupReason::NoPeer),
    }
}

/// What `announce` does where its words are said.
fn run_announce<D: Desk>(alloc: Global, desk: &mut D, said: &AnnounceWords<'_>) -> Status
    ensures runs { AnnounceRuns (announce_of said.now) D.tells (D.held desk.old) (D.at desk.old) (D.at desk.new) result }
    ensures behaves { Behaves (announce_ports (announce_of said.now)) D.tells (D.held desk.old) (D.at desk.old) (D.at desk.new) result }
{
    match read_setup(alloc, desk, said.setup) {
        Ok(setup) => announce_on(alloc, desk, said, &setup),
        Err(status) => status,
    }
}

/// The command `announce SETUP PEER ROUTES MADE`: the control file by which the peer announces the routes of a text.
///
/// Setup is bound, read and parsed first; where it has no such peer, the answer is `setup 0 no-peer`, and nothing else is
/// looked at. Then Routes and Made are bound, the text is read whole, and the file is written. Where a line of the text is
/// refused, nothing is written.
pub fn announce_call<D: Desk>(alloc: Global, words: &Words, desk: &mut D) -> Status
    ensures { AnnounceCall words.now D.tells (D.held desk.old) (D.at desk.old) (D.at desk.new) result }
{
    match announce_words(words) {
        Some(said) => run_announce(alloc, desk, &said),
        None => Status::Words,
    }
}
