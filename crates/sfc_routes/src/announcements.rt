//! The routes that an update announces.

ghost use Rattle.std.specs.Prelude.{◌≡◌, filter, is_some, IfOk};
ghost use Rattle.sfc_routes.specs.Meanings.{is_target, targets_of, is_announced, path_for, route_for, routes_for, announced_by};
ghost use Rattle.bgp_update.specs.Updates.{is_broken};

use crate::routes::{Route, copy_path, copy_targets};
use crate::update_parts::{communities_of, reach_of};
use bgp_update::{MpReach, Nlri, Update};
use sfp_attribute::Sfp;
use std::alloc::Global;
use wire_base::{Fixed, List, NextHop, OutOfMemory};

/// The highest type of a community that may be a route target, and the subtype of those (RFC 4360, section 4).
const LAST_TYPE: u8 = 2;

const ROUTE_TARGET: u8 = 2;

fn is_target(community: &Fixed<8>) -> bool
    ensures { result ≡ is_target community.now }
{
    let bytes = community.bytes();
    bytes[0] <= LAST_TYPE && bytes[1] == ROUTE_TARGET
}

/// The communities that are route targets, in order.
pub(crate) fn targets_of(alloc: Global, update: &Update) -> Result<List<Fixed<8>>, OutOfMemory>
    ensures { IfOk result (λ targets. targets ≡ targets_of update.now) }
{
    let communities = communities_of(update);
    let mut targets = List::new(alloc);
    for community in communities {
        if is_target(community) {
            targets.push(*community)?;
        }
    }
    Ok(targets)
}

/// Whether a reachable route is announced.
pub(crate) fn is_announced(broken: bool, path: bool, nlri: &Nlri) -> bool
    ensures { result ≡ is_announced broken path nlri.now }
{
    match nlri {
        Nlri::Sfir { .. } => !broken,
        Nlri::Sfpr { .. } => !broken && path,
        Nlri::Other { .. } => false,
    }
}

/// The path that goes with a route: only a path route has one.
fn path_for(alloc: Global, path: &Option<Sfp>, nlri: &Nlri) -> Result<Option<Sfp>, OutOfMemory>
    ensures { IfOk result (λ copy. copy ≡ path_for path.now nlri.now) }
{
    match nlri {
        Nlri::Sfir { .. } => Ok(None),
        Nlri::Sfpr { .. } => copy_path(alloc, path),
        Nlri::Other { .. } => Ok(None),
    }
}

fn route_for(
    alloc: Global,
    next_hop: NextHop,
    targets: &[Fixed<8>],
    path: &Option<Sfp>,
    nlri: &Nlri,
) -> Result<Route, OutOfMemory>
    ensures { IfOk result (λ route. route ≡ route_for next_hop targets.now path.now nlri.now) }
{
    let path = path_for(alloc, path, nlri)?;
    let targets = copy_targets(alloc, targets)?;
    let nlri = nlri.copy(alloc)?;
    Ok(Route {
        nlri,
        next_hop,
        targets,
        path,
    })
}

fn routes_for(
    alloc: Global,
    reach: &MpReach,
    broken: bool,
    targets: &[Fixed<8>],
    path: &Option<Sfp>,
) -> Result<List<Route>, OutOfMemory>
    ensures { IfOk result (λ routes. routes ≡ routes_for reach.now broken targets.now path.now) }
{
    let has_path = path.is_some();
    let nlris = reach.nlri.as_slice();
    let mut routes = List::new(alloc);
    for nlri in nlris {
        if is_announced(broken, has_path, nlri) {
            let route = route_for(alloc, reach.next_hop, targets, path, nlri)?;
            routes.push(route)?;
        }
    }
    Ok(routes)
}

/// The routes that an update with this path announces, in order.
pub(crate) fn announced_by(
    alloc: Global,
    update: &Update,
    path: &Option<Sfp>,
) -> Result<List<Route>, OutOfMemory>
    ensures { IfOk result (λ routes. routes ≡ announced_by update.now path.now) }
{
    let targets = targets_of(alloc, update)?;
    match reach_of(update) {
        Some(reach) => routes_for(alloc, reach, update.broken(), targets.as_slice(), path),
        None => Ok(List::new(alloc)),
    }
}
