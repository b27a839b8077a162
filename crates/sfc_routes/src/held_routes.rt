ghost use Rattle.std.specs.Prelude.{◌≡◌, IfOk};

use crate::routes::Route;
use std::alloc::Global;
use std::marker::Model;
use wire_base::OutOfMemory;

/// A route of a peer. It stands in a place of its own, so that an edit of a list moves no routes.
#[derive(Debug, Drop)]
pub(crate) struct HeldRoute {
    peer: u16,
    route: Box<Route>,
}

impl Model for HeldRoute {
    ghost use Rattle.sfc_routes.specs.PeerRoutes.{PeerRoute};

    ghost Value = { PeerRoute };

    ghost view = { λ h. record { peer = h.peer; route = h.route.value } };
}

impl HeldRoute {
    /// A copy of a peer's route.
    pub(crate) fn copy_of(alloc: Global, peer: u16, route: &Route) -> Result<HeldRoute, OutOfMemory>
        ensures { IfOk result (λ held. held ≡ record { peer = peer; route = route.now }) }
    {
        let copy = route.copy(alloc)?;
        let route = Box::new(alloc, copy)?;
        Ok(HeldRoute { peer, route })
    }

    pub(crate) fn peer(&self) -> u16
        ensures { result ≡ self.now.peer }
    {
        self.peer
    }

    pub(crate) fn route(&self) -> &Route
        ensures { result.now ≡ self.now.route }
    {
        &self.route
    }
}
