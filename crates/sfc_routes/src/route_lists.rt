ghost use Rattle.std.specs.Prelude.{◌≡◌, ◌<◌, [], ◌∷◌, ◌++◌, List, length, HoldsAt, OnOk, OnErr};
ghost use Rattle.sfc_routes.specs.declared.route_changes.RouteChange.{RouteChange as Change};
ghost use Rattle.sfc_routes.specs.PeerRoutes.{IsRouteChange};
ghost use Rattle.sfc_routes.specs.LastWords.{Follows, Stands};
ghost use Rattle.sfc_routes.specs.RouteLists.{IsRouteList};

use crate::held_routes::HeldRoute;
use crate::route_changes::RouteChange;
use crate::route_edits::{copies_of, take_in};
use crate::routes::Route;
use std::alloc::Global;
use std::marker::Model;
use wire_base::OutOfMemory;

/// The routes of all peers, one for a peer and an NLRI, in order: by peer; SFIRs before SFPRs; SFIRs by their service function
/// type, SFPRs by their SPI; then by RD.
#[derive(Debug, Drop)]
pub struct RouteList {
    entries: Vec<HeldRoute>,
}

impl Model for RouteList {
    ghost use Rattle.std.specs.Prelude.{List};
    ghost use Rattle.sfc_routes.specs.PeerRoutes.{PeerRoute};
    ghost use Rattle.sfc_routes.specs.RouteLists.{IsRouteList};

    ghost Value = { List PeerRoute };

    ghost view = { λ l. l.entries.items };

    ghost invariant = { λ l. IsRouteList l.entries.items };
}

impl RouteList {
    /// The list without a route. It takes no memory.
    pub fn new(alloc: Global) -> RouteList
        ensures value { result ≡ [] }
        ensures history { Stands result [] }
    {
        RouteList {
            entries: Vec::new(alloc),
        }
    }

    /// How many routes there are.
    pub fn len(&self) -> usize
        ensures value { result ≡ length self.now }
        ensures kept { IsRouteList self.now }
    {
        self.entries.len()
    }

    /// The route at a place, counted from 0, and its peer.
    pub fn entry(&self, i: usize) -> (u16, &Route)
        requires { i < length self.now }
        ensures { HoldsAt (λ e. (result.0 ≡ e.peer) × (result.1.now ≡ e.route)) self.now i }
    {
        let held = &self.entries[i];
        (held.peer(), held.route())
    }

    /// Does what a change says: first all routes of the peer go where it says so, then those that it withdraws, and then the
    /// announced ones come, each in place of the peer's route of the same NLRI. After want of memory the list is
    /// unchanged. A route is found by halves.
    pub fn apply(&mut self, change: &RouteChange) -> Result<(), OutOfMemory>
        requires { IsRouteChange change.now }
        ensures ok { OnOk result (Follows self.old change.now self.new) }
        ensures history { OnOk result ((changes : List Change) → Stands self.old changes → Stands self.new (changes ++ change.now ∷ [])) }
        ensures err { OnErr result (self.new ≡ self.old) }
    {
        let alloc = *self.entries.allocator();
        let fresh = copies_of(alloc, change)?;
        self.entries.reserve(fresh.len())?;
        take_in(&mut self.entries, change, fresh);
        Ok(())
    }
}
