ghost use Rattle.std.specs.Prelude.{IfOk};
ghost use Rattle.sfc_routes.specs.PeerRoutes.{IsRouteChange};
ghost use Rattle.sfc_routes.specs.Meanings.{ChangeOf};

use crate::announcements::announced_by;
use crate::route_changes::RouteChange;
use crate::update_paths::path_of;
use crate::withdrawals::withdrawn_by;
use bgp_update::Update;
use std::alloc::Global;
use wire_base::OutOfMemory;

/// What an update means: the change that it makes of the routes of a peer (after RFC 9015, section 3).
///
/// Of several attributes of one kind the first counts, also where it is bad. The routes of MP_UNREACH_NLRI are withdrawn, those of
/// MP_REACH_NLRI announced, each with the next hop and the route targets, a path route also with the path of the SFP
/// attribute. They are withdrawn in place of that, behind the others and in order: all of them where the extended communities are
/// kept unread; the path routes where there is no SFP attribute, it is not optional and transitive, or its value is
/// refused. Routes of other types, the family's reserved byte and all other attributes have no meaning.
pub fn routes_of(alloc: Global, peer: u16, update: &Update) -> Result<RouteChange, OutOfMemory>
    ensures meaning { IfOk result (λ change. ChangeOf peer update.now change) }
    ensures fits { IfOk result (λ change. IsRouteChange change) }
{
    let path = path_of(alloc, update)?;
    let withdrawn = withdrawn_by(alloc, update, path.is_some())?;
    let announced = announced_by(alloc, update, &path)?;
    Ok(RouteChange {
        peer,
        all: false,
        withdrawn,
        announced,
    })
}
