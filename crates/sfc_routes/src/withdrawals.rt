//! The routes that an update withdraws.

ghost use Rattle.std.specs.Prelude.{◌≡◌, ◌++◌, filter, OnOk, IfOk};
ghost use Rattle.bgp_update.specs.Updates.{is_broken};
ghost use Rattle.sfc_routes.specs.Meanings.{is_service, is_turned, reached, unreached};

use crate::announcements::is_announced;
use crate::update_parts::{reached, unreached};
use bgp_update::{Nlri, Update};
use std::alloc::Global;
use wire_base::{List, OutOfMemory};

/// Whether a route is a service function instance route or path route.
fn is_service(nlri: &Nlri) -> bool
    ensures { result ≡ is_service nlri.now }
{
    match nlri {
        Nlri::Sfir { .. } => true,
        Nlri::Sfpr { .. } => true,
        Nlri::Other { .. } => false,
    }
}

/// Whether a reachable route is withdrawn.
fn is_turned(broken: bool, path: bool, nlri: &Nlri) -> bool
    ensures { result ≡ is_turned broken path nlri.now }
{
    is_service(nlri) && !is_announced(broken, path, nlri)
}

fn push_services(alloc: Global, out: &mut List<Nlri>, nlris: &[Nlri]) -> Result<(), OutOfMemory>
    ensures { OnOk result (out.new ≡ out.old ++ filter is_service nlris.now) }
{
    for nlri in nlris {
        if is_service(nlri) {
            out.push(nlri.copy(alloc)?)?;
        }
    }
    Ok(())
}

fn push_turned(
    alloc: Global,
    out: &mut List<Nlri>,
    nlris: &[Nlri],
    broken: bool,
    path: bool,
) -> Result<(), OutOfMemory>
    ensures { OnOk result (out.new ≡ out.old ++ filter (is_turned broken path) nlris.now) }
{
    for nlri in nlris {
        if is_turned(broken, path, nlri) {
            out.push(nlri.copy(alloc)?)?;
        }
    }
    Ok(())
}

/// The routes that an update withdraws: first those that it names so, then the reachable ones that are not announced.
pub(crate) fn withdrawn_by(
    alloc: Global,
    update: &Update,
    path: bool,
) -> Result<List<Nlri>, OutOfMemory>
    ensures { IfOk result (λ nlris. nlris ≡ filter is_service (unreached update.now) ++ filter (is_turned (is_broken update.now) path) (reached update.now)) }
{
    let mut out = List::new(alloc);
    push_services(alloc, &mut out, unreached(update))?;
    push_turned(alloc, &mut out, reached(update), update.broken(), path)?;
    Ok(out)
}
