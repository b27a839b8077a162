//! The bound routes are read, and the file that announces them is written.

ghost use Rattle.std.specs.Prelude.{◌≡◌, ◌≢◌, ◌≤◌, ◌<◌, ℕ, List as Sequence, true, [], length, IfOk, IfErr, OnOk, OnErr};
ghost use Rattle.sfc_desk.specs.declared.ports.Port.{Port};
ghost use Rattle.sfc_desk.specs.Desks.{Rose, Moves};
ghost use Rattle.bgp_session.specs.LocalSide.{IsLocal};
ghost use Rattle.control_files.specs.Segments.{segments_bytes};
ghost use Rattle.route_texts.specs.RouteTexts.{IsRoutes};
ghost use Rattle.session_machine.specs.Sides.{IsPeer};
ghost use Rattle.commands.specs.Fronts.{IsFront};
ghost use Rattle.commands.specs.Pieces.{NoneBound, SameCounts};
ghost use Rattle.announced_files.specs.Announced.{announced};
ghost use Rattle.announce_command.specs.AnnounceSteps.{TextRead, Spells, ReadStops, MadeWorks, AnnounceWorks, text_of};

use announced_files::announce_file;
use bgp_session::Local;
use commands::{ReadFault, Status, read_all, write_all};
use route_texts::{RoutesFault, parse_routes};
use sfc_desk::{Desk, Port};
use sfc_routes::Route;
use std::alloc::Global;
use wire_base::List;

/// The most bytes of a routes text.
const ROUTES_LIMIT: usize = 16_777_216;

/// The routes that a text spells, or the answer for which it has none.
fn routes_of(alloc: Global, text: &[u8]) -> Result<List<Route>, Status>
    ensures { TextRead text.now result }
{
    match parse_routes(alloc, text) {
        Ok(routes) => Ok(routes),
        Err(RoutesFault::Line(line)) => Err(Status::Records(line)),
        Err(RoutesFault::OutOfMemory) => Err(Status::Memory),
    }
}

/// All bytes of the bound routes.
fn routes_text<D: Desk>(alloc: Global, desk: &mut D) -> Result<Vec<u8>, Status>
    requires bound { (D.at desk.old Port.Routes).bound ≡ true }
    ensures all { D.tells ≡ true → IfOk result (λ text. text_of (D.at desk.old) ≡ text.items) }
    ensures end { D.tells ≡ true → OnOk result (text_of (D.at desk.new) ≡ []) }
    ensures within { IfOk result (λ text. length text.items ≤ 16777216) }
    ensures stops { IfErr result (ReadStops D.tells (D.at desk.old) (D.at desk.new)) }
    ensures quiet { OnOk result (SameCounts (D.at desk.old) (D.at desk.new)) }
    ensures moves { Moves D.tells Port.Routes (D.held desk.old) (D.held desk.new) (D.at desk.old) (D.at desk.new) }
{
    match read_all(alloc, desk, Port::Routes, ROUTES_LIMIT) {
        Ok(text) => Ok(text),
        Err(ReadFault::File) => Err(Status::File(Port::Routes)),
        Err(ReadFault::Long) => Err(Status::Long(Port::Routes)),
        Err(ReadFault::OutOfMemory) => Err(Status::Memory),
    }
}

/// The routes that the bound routes text spells.
fn bound_routes<D: Desk>(alloc: Global, desk: &mut D) -> Result<List<Route>, Status>
    requires bound { (D.at desk.old Port.Routes).bound ≡ true }
    ensures routes { D.tells ≡ true → IfOk result (Spells (text_of (D.at desk.old))) }
    ensures texts { IfOk result (λ routes. (text : Sequence ℕ) × IsRoutes text routes) }
    ensures end { D.tells ≡ true → OnOk result (text_of (D.at desk.new) ≡ []) }
    ensures stops { IfErr result (ReadStops D.tells (D.at desk.old) (D.at desk.new)) }
    ensures quiet { OnOk result (SameCounts (D.at desk.old) (D.at desk.new)) }
    ensures moves { Moves D.tells Port.Routes (D.held desk.old) (D.held desk.new) (D.at desk.old) (D.at desk.new) }
{
    let text = match routes_text(alloc, desk) {
        Ok(text) => text,
        Err(status) => return Err(status),
    };
    routes_of(alloc, text.as_slice())
}

/// Writes the file of the peer's routes to the bound Made.
fn write_made<D: Desk>(
    alloc: Global,
    desk: &mut D,
    local: &Local,
    peer: u16,
    asn: u32,
    routes: &List<Route>,
) -> Status
    requires bound { (D.at desk.old Port.Made).bound ≡ true }
    requires empty { D.tells ≡ true → (D.at desk.old Port.Made).written ≡ [] }
    requires local { IsLocal local.now }
    requires peer { IsPeer peer asn }
    requires routes { (text : Sequence ℕ) × IsRoutes text routes.now }
    ensures works { MadeWorks local.now peer asn routes.now D.tells (D.at desk.old) (D.at desk.new) result }
    ensures moves { Moves D.tells Port.Made (D.held desk.old) (D.held desk.new) (D.at desk.old) (D.at desk.new) }
{
    let Ok(file) = announce_file(alloc, local, peer, asn, routes) else {
        return Status::Memory;
    };
    match write_all(desk, Port::Made, file.as_slice()) {
        Ok(()) => Status::Ok,
        Err(_) => Status::File(Port::Made),
    }
}

/// Reads the bound routes, and writes the file that announces them to the bound Made.
pub(crate) fn announce_bound<D: Desk>(
    alloc: Global,
    desk: &mut D,
    local: &Local,
    peer: u16,
    asn: u32,
) -> Status
    requires routes { (D.at desk.old Port.Routes).bound ≡ true }
    requires made { (D.at desk.old Port.Made).bound ≡ true }
    requires empty { D.tells ≡ true → (D.at desk.old Port.Made).written ≡ [] }
    requires local { IsLocal local.now }
    requires peer { IsPeer peer asn }
    ensures works { AnnounceWorks local.now peer asn D.tells (D.at desk.old) (D.at desk.new) result }
    ensures none_bound { NoneBound D.tells (D.at desk.old) (D.at desk.new) }
    ensures counts { (port : Port) → result ≢ Status.File port → (D.at desk.new port).faults ≡ (D.at desk.old port).faults }
    ensures others { (port : Port) → port ≢ Port.Routes → port ≢ Port.Made → D.at desk.new port ≡ D.at desk.old port }
{
    let routes = match bound_routes(alloc, desk) {
        Ok(routes) => routes,
        Err(status) => return status,
    };
    write_made(alloc, desk, local, peer, asn, &routes)
}
