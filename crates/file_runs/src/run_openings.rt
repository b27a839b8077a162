//! The ports of a run behind its setup, bound in their order.

ghost use Rattle.std.specs.Prelude.{◌≡◌, ◌≢◌, true, Some, List as Sequence, [], ◌∷◌, ◌++◌, IfErr, OnOk};
ghost use Rattle.sfc_desk.specs.Desks.{Shown};
ghost use Rattle.sfc_desk.specs.declared.ports.Port.{Port as DeskPort};
ghost use Rattle.commands.specs.Openings.{Opened, StopsAt};
ghost use Rattle.commands.specs.Places.{Place, opens};
ghost use Rattle.setup_inputs.specs.Setups.{setup_place};
ghost use Rattle.file_runs.specs.FileRuns.{HasCapture, IsRunPort, run_ports};
ghost use Rattle.file_runs.specs.RunPuts.{OutsBound};
ghost use Rattle.file_runs.specs.RunSteps.{HoldsInputs, files_of, input_ports};

use crate::run_words::RunWords;
use commands::open_port;
use sfc_desk::{Desk, Port};

/// Binds the two inputs, or tells which one was not bound.
fn open_inputs<D: Desk>(desk: &mut D, said: &RunWords<'_>) -> Result<(), Port>
    ensures opens { (then : DeskPort → Shown) → Opened (setup_place said.now.setup.now ∷ []) D.tells then (D.at desk.old)
        → OnOk result (Opened (input_ports (files_of said.now)) D.tells then (D.at desk.new)) }
    ensures stops { (then : DeskPort → Shown) → Opened (setup_place said.now.setup.now ∷ []) D.tells then (D.at desk.old)
        → IfErr result (λ port. StopsAt (run_ports (files_of said.now)) D.tells (D.held desk.old) then (D.at desk.new) port) }
    ensures run { IfErr result IsRunPort }
    ensures there { IfErr result (λ port. port ≢ DeskPort.Capture → D.tells ≡ true → HasCapture (files_of said.now) (D.held desk.old)) }
    ensures holds { OnOk result (D.tells ≡ true → HoldsInputs (files_of said.now) (D.held desk.old) (D.at desk.new)) }
    ensures bound { OnOk result (((D.at desk.new Port.Capture).bound ≡ true) × ((D.at desk.new Port.Control).bound ≡ true)) }
    ensures files { D.held desk.new ≡ D.held desk.old }
{
    if open_port(desk, Port::Capture, said.capture).is_err() {
        return Err(Port::Capture);
    }
    if open_port(desk, Port::Control, said.control).is_err() {
        return Err(Port::Control);
    }
    Ok(())
}

/// Binds the three outputs, or tells which one was not bound.
fn open_outputs<D: Desk>(desk: &mut D, said: &RunWords<'_>) -> Result<(), Port>
    ensures opens { (then : DeskPort → Shown) → Opened (input_ports (files_of said.now)) D.tells then (D.at desk.old)
        → OnOk result (Opened (run_ports (files_of said.now)) D.tells then (D.at desk.new)) }
    ensures stops { (then : DeskPort → Shown) → Opened (input_ports (files_of said.now)) D.tells then (D.at desk.old)
        → IfErr result (λ port. StopsAt (run_ports (files_of said.now)) D.tells (D.held desk.old) then (D.at desk.new) port) }
    ensures run { IfErr result IsRunPort }
    ensures egress { OnOk result (((D.at desk.new Port.Egress).bound ≡ true) × (D.tells ≡ true → (D.at desk.new Port.Egress).written ≡ [])) }
    ensures lines { OnOk result (((D.at desk.new Port.Lines).bound ≡ true) × (D.tells ≡ true → (D.at desk.new Port.Lines).written ≡ [])) }
    ensures replies { OnOk result (((D.at desk.new Port.Replies).bound ≡ true) × (D.tells ≡ true → (D.at desk.new Port.Replies).written ≡ [])) }
    ensures capture { D.at desk.new Port.Capture ≡ D.at desk.old Port.Capture }
    ensures control { D.at desk.new Port.Control ≡ D.at desk.old Port.Control }
    ensures files { D.held desk.new ≡ D.held desk.old }
{
    if open_port(desk, Port::Egress, said.egress).is_err() {
        return Err(Port::Egress);
    }
    if open_port(desk, Port::Lines, said.lines).is_err() {
        return Err(Port::Lines);
    }
    if open_port(desk, Port::Replies, said.replies).is_err() {
        return Err(Port::Replies);
    }
    Ok(())
}

/// Binds the two inputs and the three outputs behind the setup, in the order of the row, or tells which one was not bound: the call may
/// then end with File of it.
pub fn open_files<D: Desk>(desk: &mut D, said: &RunWords<'_>) -> Result<(), Port>
    ensures opens { (then : DeskPort → Shown) → Opened (setup_place said.now.setup.now ∷ []) D.tells then (D.at desk.old)
        → OnOk result (Opened (run_ports (files_of said.now)) D.tells then (D.at desk.new)) }
    ensures stops { (then : DeskPort → Shown) → Opened (setup_place said.now.setup.now ∷ []) D.tells then (D.at desk.old)
        → IfErr result (λ port. StopsAt (run_ports (files_of said.now)) D.tells (D.held desk.old) then (D.at desk.new) port) }
    ensures run { IfErr result IsRunPort }
    ensures there { IfErr result (λ port. port ≢ DeskPort.Capture → D.tells ≡ true → HasCapture (files_of said.now) (D.held desk.old)) }
    ensures holds { OnOk result (D.tells ≡ true → HoldsInputs (files_of said.now) (D.held desk.old) (D.at desk.new)) }
    ensures bound { OnOk result (OutsBound D.tells (D.at desk.new)) }
    ensures files { D.held desk.new ≡ D.held desk.old }
{
    if let Err(port) = open_inputs(desk, said) {
        return Err(port);
    }
    open_outputs(desk, said)
}
