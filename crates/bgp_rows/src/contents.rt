//! The content of an UPDATE.

ghost use Rattle.bgp_update.specs.Updates.{UpdateFits};

use anyhow::anyhow;
use bgp_update::{Body, Nlri, Update, decode_update, encode_update};
use std::alloc::Global;

/// Whether an update is written as these bytes.
fn is_written_as(alloc: Global, update: &Update, content: &[u8]) -> anyhow::Result<bool>
    requires { UpdateFits update.now }
{
    match encode_update(alloc, update) {
        Ok(written) => Ok(written.as_slice() == content),
        Err(_) => Err(anyhow!("no memory for an update")),
    }
}

/// Whether the copy of a route is the same route.
fn is_copied(alloc: Global, route: &Nlri) -> bool {
    match route.copy(alloc) {
        Ok(copy) => copy.same(route),
        Err(_) => false,
    }
}

/// The routes of an attribute.
fn routes_of(body: &Body) -> &[Nlri] {
    match body {
        Body::Reach(reach) => reach.nlri.as_slice(),
        Body::Unreach(unreach) => unreach.nlri.as_slice(),
        _ => &[],
    }
}

/// Prints of each route whether its copy is the same, and whether it is the same as the first.
fn show_routes<R: Print>(rt: &R, alloc: Global, routes: &[Nlri]) -> anyhow::Result<()> {
    let Some(first) = routes.first() else {
        return Ok(());
    };
    for route in routes {
        let copied = is_copied(alloc, route);
        println!(rt;
            "route copied: {copied}, as the first: {}",
            route.same(first)
        )?;
    }
    Ok(())
}

/// Prints the update that the bytes are, whether it is broken, and whether it is written as these bytes again, and its
/// routes; or the fault.
pub(crate) fn show<R: Print>(rt: &R, alloc: Global, content: &[u8]) -> anyhow::Result<()> {
    match decode_update(alloc, content) {
        Ok(update) => {
            let again = is_written_as(alloc, &update, content)?;
            println!(rt; "{update:?}")?;
            println!(rt; "broken: {}, written again: {again}", update.broken())?;
            for attribute in update.attributes.as_slice() {
                show_routes(rt, alloc, routes_of(&attribute.body))?;
            }
        }
        Err(fault) => println!(rt; "{fault:?}")?,
    }
    Ok(())
}
