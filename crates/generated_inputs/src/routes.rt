//! The routes of generated inputs.

ghost use Rattle.std.specs.Prelude.{◌≡◌, ◌++◌, ◌∷◌, [], IfOk, OnOk};
ghost use Rattle.generated_inputs.specs.Routes.{rd_with, any_rd, hop_to, firewall_route, generated_routes, instance_route, path_route};

use bgp_update::Nlri;
use sfc_routes::Route;
use sfp_attribute::{HopPart, Part, Sfp};
use std::alloc::Global;
use wire_base::{Fixed, List, NextHop, OutOfMemory, Spi};

/// The route distinguisher with this number, of AS 65000.
fn rd_with(number: u8) -> Fixed<8>
    ensures { result ≡ rd_with number }
{
    Fixed::of(&[0, 0, 0xFD, 0xE8, 0, 0, 0, number]).unwrap()
}

/// The one that stands for every instance of a type.
fn any_rd() -> Fixed<8>
    ensures { result ≡ any_rd }
{
    Fixed::of(&[0; 8]).unwrap()
}

/// The route of an instance of this type at the forwarder 10.0.0.`last`.
fn instance_route(alloc: Global, number: u8, kind: u16, last: u8) -> Route
    ensures { result ≡ instance_route number kind last }
{
    Route {
        nlri: Nlri::Sfir {
            rd: rd_with(number),
            kind,
        },
        next_hop: NextHop::Four(Fixed::of(&[10, 0, 0, last]).unwrap()),
        targets: List::new(alloc),
        path: None,
    }
}

/// The route of the firewall, which comes and goes.
pub(crate) fn firewall_route(alloc: Global) -> Route
    ensures { result ≡ firewall_route }
{
    instance_route(alloc, 1, 41, 2)
}

/// A hop with one type and one route distinguisher.
fn hop_to(alloc: Global, si: u8, kind: u16, rd: Fixed<8>) -> Result<Part, OutOfMemory>
    ensures { IfOk result (λ hop. hop ≡ hop_to si kind rd) }
{
    let mut rds = List::new(alloc);
    rds.push(rd)?;
    let mut parts = List::new(alloc);
    parts.push(HopPart::Sft { kind, rds })?;
    Ok(Part::Hop { si, parts })
}

/// The route of path 42: any tag, then the address translation, then the firewall.
fn path_route(alloc: Global) -> Result<Route, OutOfMemory>
    ensures { IfOk result (λ route. route ≡ path_route) }
{
    let mut parts = List::new(alloc);
    parts.push(hop_to(alloc, 255, 43, any_rd())?)?;
    parts.push(hop_to(alloc, 254, 42, rd_with(2))?)?;
    parts.push(hop_to(alloc, 253, 41, rd_with(1))?)?;
    Ok(Route {
        nlri: Nlri::Sfpr {
            rd: rd_with(42),
            spi: Spi::of(42).unwrap(),
        },
        next_hop: NextHop::Four(Fixed::of(&[0; 4]).unwrap()),
        targets: List::new(alloc),
        path: Some(Sfp { parts }),
    })
}

/// All routes, the firewall's first.
pub(crate) fn generated_routes(alloc: Global) -> Result<List<Route>, OutOfMemory>
    ensures { IfOk result (λ routes. routes ≡ generated_routes) }
{
    let mut routes = List::new(alloc);
    routes.push(firewall_route(alloc))?;
    routes.push(instance_route(alloc, 2, 42, 1))?;
    routes.push(instance_route(alloc, 3, 43, 1))?;
    routes.push(path_route(alloc)?)?;
    Ok(routes)
}
