ghost use Rattle.std.specs.Prelude.{◌≡◌, ◌<◌, ◌≤◌, true, List, [], ◌∷◌, length, IfOk, IfErr, OnOk};
ghost use Rattle.sfc_desk.specs.Desks.{Moves};
ghost use Rattle.commands.specs.Commands.{Behaves};
ghost use Rattle.commands.specs.Openings.{Opened};
ghost use Rattle.commands.specs.Pieces.{SameCounts};
ghost use Rattle.commands.specs.Places.{Place, IsRow};
ghost use Rattle.setup_inputs.specs.Setups.{HoldsSetup, StopsAtSetup, setup_place};
ghost use Rattle.setup_inputs.specs.Steps.{TextRead, Spells, ReadStops, text_of};

use commands::{ReadFault, Status, open_port, read_all};
use sfc_config::{Setup, SetupFault, parse_setup};
use sfc_desk::{Desk, Port};
use std::alloc::Global;

/// The most bytes of a setup.
const SETUP_LIMIT: usize = 1_048_576;

/// The setup that a text spells, or the answer for which it has none.
fn setup_of(alloc: Global, text: &[u8]) -> Result<Setup, Status>
    ensures { TextRead text.now result }
{
    match parse_setup(alloc, text) {
        Ok(setup) => Ok(setup),
        Err(SetupFault::Line(line, reason)) => Err(Status::Setup(line, reason)),
        Err(SetupFault::OutOfMemory) => Err(Status::Memory),
    }
}

/// All bytes of the bound Setup.
fn setup_text<D: Desk>(alloc: Global, desk: &mut D) -> Result<Vec<u8>, Status>
    requires bound { (D.at desk.old Port.Setup).bound ≡ true }
    ensures all { D.tells ≡ true → IfOk result (λ text. text_of (D.at desk.old) ≡ text.items) }
    ensures end { D.tells ≡ true → OnOk result (text_of (D.at desk.new) ≡ []) }
    ensures within { IfOk result (λ text. length text.items ≤ 1048576) }
    ensures stops { IfErr result (ReadStops D.tells (D.at desk.old) (D.at desk.new)) }
    ensures quiet { OnOk result (SameCounts (D.at desk.old) (D.at desk.new)) }
    ensures moves { Moves D.tells Port.Setup (D.held desk.old) (D.held desk.new) (D.at desk.old) (D.at desk.new) }
{
    match read_all(alloc, desk, Port::Setup, SETUP_LIMIT) {
        Ok(text) => Ok(text),
        Err(ReadFault::File) => Err(Status::File(Port::Setup)),
        Err(ReadFault::Long) => Err(Status::Long(Port::Setup)),
        Err(ReadFault::OutOfMemory) => Err(Status::Memory),
    }
}

/// The setup that the bound Setup spells.
fn bound_setup<D: Desk>(alloc: Global, desk: &mut D) -> Result<Setup, Status>
    requires bound { (D.at desk.old Port.Setup).bound ≡ true }
    ensures setup { D.tells ≡ true → IfOk result (Spells (text_of (D.at desk.old))) }
    ensures end { D.tells ≡ true → OnOk result (text_of (D.at desk.new) ≡ []) }
    ensures stops { IfErr result (ReadStops D.tells (D.at desk.old) (D.at desk.new)) }
    ensures quiet { OnOk result (SameCounts (D.at desk.old) (D.at desk.new)) }
    ensures moves { Moves D.tells Port.Setup (D.held desk.old) (D.held desk.new) (D.at desk.old) (D.at desk.new) }
{
    let text = match setup_text(alloc, desk) {
        Ok(text) => text,
        Err(status) => return Err(status),
    };
    setup_of(alloc, text.as_slice())
}

/// Binds Setup under its word, reads it to its end and parses it.
///
/// With a setup, Setup is the one port that was bound, and the call goes on from there. Else the call ends with the status:
/// File of Setup, Long of a text with more than 1,048,576 bytes, Setup with the first refused line of a shorter one, or
/// Memory; no other port was touched then.
pub fn read_setup<D: Desk>(alloc: Global, desk: &mut D, name: &str) -> Result<Setup, Status>
    ensures opened { OnOk result (Opened (setup_place name.now ∷ []) D.tells (D.at desk.old) (D.at desk.new)) }
    ensures setup { D.tells ≡ true → IfOk result (HoldsSetup name.now (D.held desk.old)) }
    ensures end { D.tells ≡ true → OnOk result ((D.at desk.new Port.Setup).left ≡ []) }
    ensures stops { IfErr result (StopsAtSetup name.now D.tells (D.held desk.old) (D.at desk.old) (D.at desk.new)) }

    // Whatever the row has behind Setup.
    ensures behaves { (later : List Place) → IsRow (setup_place name.now ∷ later)
        → IfErr result (Behaves (setup_place name.now ∷ later) D.tells (D.held desk.old) (D.at desk.old) (D.at desk.new)) }
    ensures files { D.held desk.new ≡ D.held desk.old }
{
    if open_port(desk, Port::Setup, name).is_err() {
        return Err(Status::File(Port::Setup));
    }
    bound_setup(alloc, desk)
}
