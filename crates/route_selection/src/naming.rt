//! Which candidates a hop names.

ghost use Rattle.std.specs.Prelude.{◌≡◌};
ghost use Rattle.std.specs.List.{list_any};
ghost use Rattle.route_selection.specs.Choices.{is_named, is_same, names, takes, any_rd};

use crate::candidates::Candidate;
use sfc_routes::Rd;
use sfp_attribute::HopPart;

/// Whether all bytes are zero: the RD that stands for all.
fn is_any(rd: &Rd) -> bool
    ensures { result ≡ is_same rd.now any_rd }
{
    let zeros = [0u8, 0, 0, 0, 0, 0, 0, 0];
    rd.bytes().cmp(zeros.as_slice()).is_eq()
}

/// Whether an RD of an SFT stands for a candidate's own.
fn takes(own: &Rd, rd: &Rd) -> bool
    ensures { result ≡ takes own.now rd.now }
{
    rd.compare(own).is_eq() || is_any(rd)
}

/// Whether some RD of an SFT stands for a candidate's own.
fn any_takes(own: &Rd, rds: &[Rd]) -> bool
    ensures { result ≡ list_any (takes own.now) rds.now }
{
    match rds.split_first() {
        None => false,
        Some((rd, rest)) => takes(own, rd) || any_takes(own, rest),
    }
}

fn names(candidate: &Candidate, part: &HopPart) -> bool
    ensures { result ≡ names candidate.now part.now }
{
    match part {
        HopPart::Sft { kind, rds } => {
            *kind == candidate.kind && any_takes(&candidate.rd, rds.as_slice())
        }
        HopPart::Other { .. } => false,
    }
}

/// Whether some SFT of a hop names a candidate.
pub(crate) fn is_named(inside: &[HopPart], candidate: &Candidate) -> bool
    ensures { result ≡ is_named inside.now candidate.now }
{
    match inside.split_first() {
        None => false,
        Some((part, rest)) => names(candidate, part) || is_named(rest, candidate),
    }
}
