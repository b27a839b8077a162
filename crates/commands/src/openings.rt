ghost use Rattle.std.specs.Prelude.{◌≡◌, ◌≢◌, true, false, Some, List as Sequence, [], ◌∷◌, ◌++◌, is_ok, OnOk, OnErr};
ghost use Rattle.sfc_desk.specs.Ports.{is_input};
ghost use Rattle.sfc_desk.specs.Desks.{Shown, Touches};
ghost use Rattle.sfc_desk.specs.declared.ports.Port.{Port};
ghost use Rattle.commands.specs.Openings.{Opened, StopsAt};
ghost use Rattle.commands.specs.Places.{Place, opens, IsRow};

use sfc_desk::{Desk, Failed, Port};

/// Binds the next port of a command's row under its word.
///
/// Where the ports before it are bound, so is this one then; where the bind fails, the call may end with
/// File of this port.
pub fn open_port<D: Desk>(desk: &mut D, port: Port, name: &str) -> Result<(), Failed>
    requires { port ≢ Port.Report }
    ensures opens { (done : Sequence Place) (then : Port → Shown) → IsRow (done ++ opens port name.now ∷ [])
        → Opened done D.tells then (D.at desk.old)
        → OnOk result (Opened (done ++ opens port name.now ∷ []) D.tells then (D.at desk.new)) }
    ensures stops { (done later : Sequence Place) (then : Port → Shown) → IsRow (done ++ opens port name.now ∷ later)
        → Opened done D.tells then (D.at desk.old)
        → OnErr result (StopsAt (done ++ opens port name.now ∷ later) D.tells (D.held desk.old) then (D.at desk.new) port) }
    ensures bound { (D.at desk.new port).bound ≡ is_ok result }
    ensures input { OnOk result (D.tells ≡ true → is_input port ≡ true
        → D.held desk.old name.now ≡ Some ((D.at desk.new port).left)) }
    ensures output { OnOk result (D.tells ≡ true → is_input port ≡ false
        → (D.at desk.new port).written ≡ []) }
    ensures touches { Touches port (D.held desk.old) (D.held desk.new) (D.at desk.old) (D.at desk.new) }
{
    desk.bind(port, name)
}
