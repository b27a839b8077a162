//! What holds of the machine, whatever steps it.

ghost use Rattle.std.specs.Prelude.{◌≡◌, ◌+◌, ◌<◌, ◌^◌, ℕ, List};
ghost use Rattle.std.specs.List.{AllByRecursion};
ghost use Rattle.session_machine.specs.declared.sides.Side.{Side};
ghost use Rattle.session_machine.specs.declared.events.Effects.{Effects};
ghost use Rattle.session_machine.specs.declared.machines.Session.{Session};
ghost use Rattle.session_machine.specs.Events.{Happening, IsHappening, Machine, beginning};
ghost use Rattle.session_machine.specs.Histories.{Runs};
ghost use Rattle.session_machine.specs.Peers.{AllHold, HasRoom, size_of};
ghost use Rattle.sfc_routes.specs.PeerRoutes.{IsRouteChange};

use sfc_routes::{an_update_has_one_change, every_update_has_a_change};

/// Over one list of events there is one list of effects, and one place where the machine is then.
pub fn a_history_has_one_run()
    ensures { (side : Side) (start : Machine) (events : List Happening) (given other : List Effects) (end end2 : Machine)
        → Runs side start events given end → Runs side start events other end2 → (given ≡ other) × (end ≡ end2) }
{
    bgp_messages::one_reading();
    bgp_update::one_reading();
    an_update_has_one_change();
}

/// Over every list of events, in which what comes is bytes, there are effects, and a place where the machine is then. Want of memory
/// is free in a step, so it does not say this.
pub fn every_history_has_a_run()
    ensures { (side : Side) (events : List Happening) → AllByRecursion IsHappening events
        → (given : List Effects) × (end : Machine) × Runs side beginning events given end }
{
    bgp_messages::every_stream_is_cut();
    bgp_messages::one_reading();
    bgp_update::every_content_is_read_or_refused();
    every_update_has_a_change();
}

/// Over every list of events the machine gives only changes that a list of routes takes.
pub fn every_change_is_one_of_routes()
    ensures { (side : Side) (start : Machine) (events : List Happening) (given : List Effects) (end : Machine) → Runs side start events given end
        → AllByRecursion (λ (effects : Effects). AllByRecursion IsRouteChange effects.changes) given }
{}

/// Where each session got at most so many bytes since its connection, there is room for what comes as long as the number of them
/// stays one of 64 bits.
pub fn room_is_counted()
    ensures { (most number : ℕ) (event : Happening) (sessions : List Session) → AllHold most sessions → most + size_of event < 2 ^ 64
        → HasRoom number event sessions }
{}
