//! What is heard of an announced file.

ghost use Rattle.std.specs.Prelude.{◌≡◌, ◌↔◌, ℕ, List, Contains};
ghost use Rattle.bgp_session.specs.declared.local_sides.Local.{Local};
ghost use Rattle.bgp_session.specs.LocalSide.{IsLocal};
ghost use Rattle.route_texts.specs.RouteTexts.{IsRoutes};
ghost use Rattle.sfc_routes.specs.declared.routes.Route.{Route};
ghost use Rattle.sfc_routes.specs.PeerRoutes.{PeerRoute};
ghost use Rattle.sfc_routes.specs.LastWords.{Routes};
ghost use Rattle.session_machine.specs.Sides.{IsPeer};
ghost use Rattle.session_machine.specs.Groups.{Entry};
ghost use Rattle.control_histories.specs.Logs.{Heard, changes_of};
ghost use Rattle.announced_files.specs.Announced.{announced};

use session_machine::a_history_has_one_run;

/// Whatever the other peers are, over the announced file of a text's routes the routes that stand are exactly these, as those of the
/// peer.
pub fn announced_routes_are_those_of_the_text()
    ensures { (local : Local) (peers : List (ℕ × ℕ)) (peer asn : ℕ) (text : List ℕ) (routes : List Route) (log : List Entry)
        → IsLocal local → IsPeer peer asn → Contains peers (peer, asn) → IsRoutes text routes → Heard local peers (announced local peer asn routes) log
        → (e : PeerRoute) → Routes (changes_of log) e ↔ ((e.peer ≡ peer) × Contains routes e.route) }
{
    a_history_has_one_run();
}
