//! Changes that are made by number.

ghost use Rattle.std.specs.Prelude.{IfOk};
ghost use Rattle.sfc_routes.specs.PeerRoutes.{IsRouteChange};

use bgp_update::Nlri;
use sfc_routes::{Route, RouteChange};
use std::alloc::Global;
use wire_base::{Fixed, List, NextHop, OutOfMemory};

/// The name of the instance route with a number.
fn name_of(number: u16) -> Nlri {
    let [high, low] = number.to_be_bytes();
    Nlri::Sfir {
        rd: Fixed::of(&[0, 0, 0xfd, 0xe8, 0, 0, high, low]).unwrap(),
        kind: 41,
    }
}

/// The end of the peer's session.
pub(crate) fn end_of(alloc: Global, peer: u16) -> RouteChange
    ensures { IsRouteChange result }
{
    RouteChange {
        peer,
        all: true,
        withdrawn: List::new(alloc),
        announced: List::new(alloc),
    }
}

/// A change that withdraws one route.
pub(crate) fn withdrawal(alloc: Global, peer: u16, number: u16) -> Result<RouteChange, OutOfMemory>
    ensures { IfOk result (λ change. IsRouteChange change) }
{
    let mut withdrawn = List::new(alloc);
    withdrawn.push(name_of(number))?;
    Ok(RouteChange {
        peer,
        all: false,
        withdrawn,
        announced: List::new(alloc),
    })
}

/// A change that announces one route.
pub(crate) fn announcement(
    alloc: Global,
    peer: u16,
    number: u16,
) -> Result<RouteChange, OutOfMemory>
    ensures { IfOk result (λ change. IsRouteChange change) }
{
    let [high, low] = number.to_be_bytes();
    let rd = Fixed::of(&[0, 0, 0xfd, 0xe8, 0, 0, high, low]).unwrap();
    let mut announced = List::new(alloc);
    announced.push(Route {
        nlri: Nlri::Sfir { rd, kind: 41 },
        next_hop: NextHop::Four(Fixed::of(&[10, 0, 0, 1]).unwrap()),
        targets: List::new(alloc),
        path: None,
    })?;
    Ok(RouteChange {
        peer,
        all: false,
        withdrawn: List::new(alloc),
        announced,
    })
}
