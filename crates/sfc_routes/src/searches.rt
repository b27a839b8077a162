//! The first entry with some values.

ghost use Rattle.std.specs.Prelude.{◌≡◌, ◌≢◌, ◌<◌, All, MatchOption, ℕ, IsTrue, ◌↔◌};
ghost use Rattle.std.specs.List.{Contains};
ghost use Rattle.sfc_routes.specs.Entries.{IsAt, Serves};

use crate::entries::{ForwarderEntry, InstanceEntry, Rd};
use wire_base::{Fixed, NextHop};

/// The place of the forwarder with a name.
pub(crate) fn place_of_forwarder(entries: &[ForwarderEntry], name: &str) -> Option<usize>
    ensures { MatchOption result (All (λ f. f.name ≢ name.now) entries.now) (λ place. IsAt (λ f. f.name ≡ name.now) entries.now place) }
{
    for (i, entry) in entries.iter().enumerate() {
        if entry.name.as_str() == name {
            return Some(i);
        }
    }
    None
}

/// The place of the forwarder at an address.
pub(crate) fn place_of_address(entries: &[ForwarderEntry], address: &NextHop) -> Option<usize>
    ensures { MatchOption result (All (λ f. f.address ≢ address.now) entries.now) (λ place. IsAt (λ f. f.address ≡ address.now) entries.now place) }
{
    for (i, entry) in entries.iter().enumerate() {
        if entry.address == *address {
            return Some(i);
        }
    }
    None
}

/// The place of the instance with a name.
pub(crate) fn place_of_instance(entries: &[InstanceEntry], name: &str) -> Option<usize>
    ensures { MatchOption result (All (λ i. i.name ≢ name.now) entries.now) (λ place. IsAt (λ i. i.name ≡ name.now) entries.now place) }
{
    for (i, entry) in entries.iter().enumerate() {
        if entry.name.as_str() == name {
            return Some(i);
        }
    }
    None
}

/// The place of the instance with an RD and a type.
pub(crate) fn place_of_service(entries: &[InstanceEntry], rd: &Rd, kind: u16) -> Option<usize>
    ensures { MatchOption result (All (λ i. ¬ (Serves rd.now kind i)) entries.now) (λ place. IsAt (Serves rd.now kind) entries.now place) }
{
    for (i, entry) in entries.iter().enumerate() {
        if entry.rd == *rd {
            if entry.kind == kind {
                return Some(i);
            }
        }
    }
    None
}

/// Whether a target is among some.
pub(crate) fn is_among(targets: &[Fixed<8>], target: &Fixed<8>) -> bool
    ensures { IsTrue result ↔ Contains targets.now target.now }
{
    for own in targets {
        if *own == *target {
            return true;
        }
    }
    false
}

/// Whether one of some targets is among one's own.
pub(crate) fn any_among(own: &[Fixed<8>], targets: &[Fixed<8>]) -> bool
    ensures { IsTrue result ↔ ((i : ℕ) × IsAt (Contains own.now) targets.now i) }
{
    for target in targets {
        if is_among(own, target) {
            return true;
        }
    }
    false
}
