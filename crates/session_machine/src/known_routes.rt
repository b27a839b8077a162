//! The routes that a peer has announced and not withdrawn, by what they name.

ghost use Rattle.std.specs.Prelude.{◌≡◌, OnOk, IfOk};
ghost use Rattle.session_machine.specs.KnownRoutes.{is_same, has, without, with_one, with_all, after_change};

use bgp_update::Nlri;
use sfc_routes::{Route, RouteChange};
use std::alloc::Global;
use wire_base::{List, OutOfMemory};

/// Whether the two name one route.
fn names_one(one: &Nlri, other: &Nlri) -> bool
    ensures { result ≡ is_same one.now other.now }
{
    one.same(other)
}

/// Whether a route is among some.
#[tactic(auto, unfolding(crate::specs::KnownRoutes::has))]
pub(crate) fn is_known(known: &[Nlri], one: &Nlri) -> bool
    ensures { result ≡ has known.now one.now }
{
    for nlri in known {
        if names_one(nlri, one) {
            return true;
        }
    }
    false
}

/// Copies of those that are not among some.
fn without_these(alloc: Global, known: &[Nlri], gone: &[Nlri]) -> Result<List<Nlri>, OutOfMemory>
    ensures { IfOk result (λ left. left ≡ without known.now gone.now) }
{
    let mut left = List::new(alloc);
    for nlri in known {
        if !is_known(gone, nlri) {
            let copy = nlri.copy(alloc)?;
            left.push(copy)?;
        }
    }
    Ok(left)
}

/// Adds a route, where it is not there.
fn add(alloc: Global, known: &mut List<Nlri>, one: &Nlri) -> Result<(), OutOfMemory>
    ensures { OnOk result (known.new ≡ with_one known.old one.now) }
{
    if is_known(known.as_slice(), one) {
        return Ok(());
    }
    let copy = one.copy(alloc)?;
    known.push(copy)?;
    Ok(())
}

/// Adds what announced routes name.
fn add_all(alloc: Global, known: &mut List<Nlri>, announced: &[Route]) -> Result<(), OutOfMemory>
    ensures { OnOk result (known.new ≡ with_all known.old announced.now) }
{
    for route in announced {
        add(alloc, known, &route.nlri)?;
    }
    Ok(())
}

/// The routes after a change.
pub(crate) fn known_after(
    alloc: Global,
    known: &[Nlri],
    change: &RouteChange,
) -> Result<List<Nlri>, OutOfMemory>
    ensures { IfOk result (λ after. after ≡ after_change known.now change.now) }
{
    let mut after = without_these(alloc, known, change.withdrawn.as_slice())?;
    add_all(alloc, &mut after, change.announced.as_slice())?;
    Ok(after)
}
