ghost use Rattle.std.specs.Prelude.{◌≡◌, ◌≢◌, MatchBool, IfOk};

use bgp_update::Nlri;
use sfp_attribute::Sfp;
use std::alloc::Global;
use wire_base::{Fixed, List, NextHop, OutOfMemory};

/// A route of a peer: what it names, and what the peer says of it (after RFC 9015, section 3).
#[derive(Debug, Drop)]
pub struct Route {
    pub nlri: Nlri,
    pub next_hop: NextHop,
    /// The route targets, in the order of the UPDATE (RFC 4360, section 4).
    pub targets: List<Fixed<8>>,
    /// The path of a service function path route; an instance route has none.
    pub path: Option<Sfp>,
}

impl Route {
    /// Whether the two are one route: of one name, with the same next hop, targets and path.
    pub fn same(&self, other: &Route) -> bool
        ensures { MatchBool result (self.now ≡ other.now) (self.now ≢ other.now) }
    {
        if !self.nlri.same(&other.nlri) {
            return false;
        }
        if self.next_hop != other.next_hop {
            return false;
        }
        if !same_targets(self.targets.as_slice(), other.targets.as_slice()) {
            return false;
        }
        same_path(&self.path, &other.path)
    }

    /// The same route.
    pub fn copy(&self, alloc: Global) -> Result<Route, OutOfMemory>
        ensures { IfOk result (λ copy. copy ≡ self.now) }
    {
        let nlri = self.nlri.copy(alloc)?;
        let targets = copy_targets(alloc, self.targets.as_slice())?;
        let path = copy_path(alloc, &self.path)?;
        Ok(Route {
            nlri,
            next_hop: self.next_hop,
            targets,
            path,
        })
    }
}

/// The same targets.
pub(crate) fn copy_targets(
    alloc: Global,
    targets: &[Fixed<8>],
) -> Result<List<Fixed<8>>, OutOfMemory>
    ensures { IfOk result (λ copy. copy ≡ targets.now) }
{
    let mut copy = List::new(alloc);
    for target in targets {
        copy.push(*target)?;
    }
    Ok(copy)
}

/// The same path, or none.
pub(crate) fn copy_path(alloc: Global, path: &Option<Sfp>) -> Result<Option<Sfp>, OutOfMemory>
    ensures { IfOk result (λ copy. copy ≡ path.now) }
{
    match path {
        Some(sfp) => Ok(Some(sfp.copy(alloc)?)),
        None => Ok(None),
    }
}

fn same_target(target: &Fixed<8>, other: &Fixed<8>) -> bool
    ensures { MatchBool result (target.now ≡ other.now) (target.now ≢ other.now) }
{
    target == other
}

fn same_targets(targets: &[Fixed<8>], others: &[Fixed<8>]) -> bool
    ensures { MatchBool result (targets.now ≡ others.now) (targets.now ≢ others.now) }
{
    if targets.len() != others.len() {
        return false;
    }
    for (i, target) in targets.iter().enumerate() {
        if !same_target(target, &others[i]) {
            return false;
        }
    }
    true
}

fn same_path(path: &Option<Sfp>, other: &Option<Sfp>) -> bool
    ensures { MatchBool result (path.now ≡ other.now) (path.now ≢ other.now) }
{
    match path {
        Some(sfp) => {
            let Some(other_sfp) = other else {
                return false;
            };
            sfp.same(other_sfp)
        }
        None => other.is_none(),
    }
}
