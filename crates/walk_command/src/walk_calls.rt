ghost use Rattle.std.specs.Prelude.{◌≡◌, ◌≢◌, ◌≤◌, true, []};
ghost use Rattle.sfc_desk.specs.declared.ports.Port.{Port};
ghost use Rattle.commands.specs.Commands.{Behaves};
ghost use Rattle.commands.specs.Pieces.{NoneBound};
ghost use Rattle.walk_command.specs.WalkCommand.{WalkCall, WalkRuns, walk_ports};
ghost use Rattle.walk_command.specs.WalkSteps.{walk_of, answer_of, WalkWorks};

use crate::walk_streams::{WalkFault, walk_stream};
use crate::walk_words::{WalkWords, walk_words};
use commands::{Status, Words, open_port};
use sfc_desk::{Desk, Port};
use std::alloc::Global;

/// The status that tells an outcome.
fn status_of(outcome: Result<(), WalkFault>) -> Status
    ensures { result ≡ answer_of outcome }
{
    match outcome {
        Ok(()) => Status::Ok,
        Err(WalkFault::Read) => Status::File(Port::Capture),
        Err(WalkFault::Write) => Status::File(Port::Egress),
        Err(WalkFault::Capture(refusal)) => Status::Capture(refusal.place, refusal.reason),
        Err(WalkFault::Long) => Status::Long(Port::Capture),
        Err(WalkFault::OutOfMemory) => Status::Memory,
    }
}

/// Walks the frames of the bound capture into the bound egress.
fn walk_bound<D: Desk>(alloc: Global, desk: &mut D, said: &WalkWords<'_>) -> Status
    requires capture { (D.at desk.old Port.Capture).bound ≡ true }
    requires egress { (D.at desk.old Port.Egress).bound ≡ true }
    requires empty { D.tells ≡ true → (D.at desk.old Port.Egress).written ≡ [] }
    ensures works { WalkWorks (walk_of said.now) D.tells (D.at desk.old) (D.at desk.new) result }
    ensures none_bound { NoneBound D.tells (D.at desk.old) (D.at desk.new) }
    ensures counts { (port : Port) → result ≢ Status.File port → (D.at desk.new port).faults ≡ (D.at desk.old port).faults }
    ensures others { (port : Port) → port ≢ Port.Capture → port ≢ Port.Egress → D.at desk.new port ≡ D.at desk.old port }
{
    status_of(walk_stream(alloc, desk, &said.path))
}

/// What `walk` does where its words are said.
fn run_walk<D: Desk>(alloc: Global, desk: &mut D, said: &WalkWords<'_>) -> Status
    requires some { 1 ≤ (walk_of said.now).count }
    requires most { (walk_of said.now).count ≤ 255 }
    ensures runs { WalkRuns (walk_of said.now) D.tells (D.held desk.old) (D.at desk.old) (D.at desk.new) result }
    ensures behaves { Behaves (walk_ports (walk_of said.now)) D.tells (D.held desk.old) (D.at desk.old) (D.at desk.new) result }
{
    if open_port(desk, Port::Capture, said.capture).is_err() {
        return Status::File(Port::Capture);
    }
    if open_port(desk, Port::Egress, said.egress).is_err() {
        return Status::File(Port::Egress);
    }
    walk_bound(alloc, desk, said)
}

/// The command `walk SPI COUNT CAPTURE EGRESS`: each frame of the capture goes, unread, over a path of
/// COUNT functions that pass it, at one forwarder, and those whose walk ends as egress are written.
///
/// Capture is bound, then Egress. The capture is read in pieces, and may have any of the four forms; the egress has
/// the same form, and in it the frames with their times. What was made so far is written each time that a read gave less
/// than was asked for. Where the capture is refused, the whole frames before are written first; where its file header
/// is, nothing is.
pub fn walk_call<D: Desk>(alloc: Global, words: &Words, desk: &mut D) -> Status
    ensures { WalkCall words.now D.tells (D.held desk.old) (D.at desk.old) (D.at desk.new) result }
{
    match walk_words(words) {
        Some(said) => run_walk(alloc, desk, &said),
        None => Status::Words,
    }
}
