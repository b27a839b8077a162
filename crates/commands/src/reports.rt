//! What the commands write to standard output.

ghost use Rattle.std.specs.Prelude.{◌≡◌, ◌++◌, true, OnOk, OnErr};
ghost use Rattle.sfc_desk.specs.Desks.{Rose, Moves};
ghost use Rattle.commands.specs.Fronts.{IsFrontBehind};
ghost use Rattle.commands.specs.Pieces.{SameCounts};

use crate::writing::write_all;
use sfc_desk::{Desk, Failed, Port};

/// Writes a text to Report.
pub fn report<D: Desk>(desk: &mut D, text: &[u8]) -> Result<(), Failed>
    ensures ok { D.tells ≡ true → OnOk result
        ((D.at desk.new Port.Report).written ≡ (D.at desk.old Port.Report).written ++ text.now) }
    ensures front { D.tells ≡ true →
        IsFrontBehind (D.at desk.old Port.Report).written (D.at desk.new Port.Report).written text.now }
    ensures cause { OnErr result (Rose (D.at desk.old Port.Report) (D.at desk.new Port.Report)) }
    ensures quiet { OnOk result (SameCounts (D.at desk.old) (D.at desk.new)) }
    ensures moves { Moves D.tells Port.Report (D.held desk.old) (D.held desk.new) (D.at desk.old) (D.at desk.new) }
{
    write_all(desk, Port::Report, text)
}
