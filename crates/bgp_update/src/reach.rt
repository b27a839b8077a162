ghost use Rattle.std.specs.Prelude.{◌≡◌, ◌≢◌, ◌≤◌, ◌<◌, ◌++◌, length, MatchOption};
ghost use Rattle.bgp_update.specs.Attributes.{family, HasFamily, hop_bytes, HopFits};
ghost use Rattle.bgp_update.specs.Refusals.{BadReach, SplitsReach};

use wire_base::{Fixed, NextHop, be_u16};

/// The address family and the subsequent one of service function routes (RFC 9015, section 3.1).
const AFI: u16 = 31;

const SAFI: u8 = 9;

/// The bytes of both.
pub(crate) const FAMILY_SIZE: usize = 3;

/// What stands behind AFI 31 and SAFI 9. None exactly where the value begins with another family.
pub(crate) fn behind_family(value: &[u8]) -> Option<&[u8]>
    requires { 3 ≤ length value.now }
    ensures { MatchOption result (¬ HasFamily value.now) (λ behind. value.now ≡ family ++ behind.now) }
{
    if be_u16(value) == AFI && value[2] == SAFI {
        Some(&value[FAMILY_SIZE..])
    } else {
        None
    }
}

/// What stands before the routes of kind 14, and these.
#[derive(Clone, Copy)]
pub(crate) struct ReachHead<'a> {
    pub(crate) next_hop: NextHop,
    pub(crate) reserved: u8,
    pub(crate) list: &'a [u8],
}

/// A next hop of these bytes. None exactly where there are neither 4 nor 16.
fn next_hop_of(bytes: &[u8]) -> Option<NextHop>
    ensures { MatchOption result ((length bytes.now ≢ 4) × (length bytes.now ≢ 16)) (λ hop. (hop_bytes hop ≡ bytes.now) × HopFits hop) }
{
    if let Some(address) = Fixed::of(bytes) {
        return Some(NextHop::Four(address));
    }
    let address = Fixed::of(bytes)?;
    Some(NextHop::Sixteen(address))
}

/// Reads what stands before the routes, behind the family (RFC 4760, section 3). None exactly where it is not all there, or
/// the next hop has neither 4 nor 16 bytes.
pub(crate) fn reach_head(behind: &[u8]) -> Option<ReachHead<'_>>
    ensures { MatchOption result (BadReach behind.now) (λ h. SplitsReach behind.now h.next_hop h.reserved h.list.now) }
{
    if behind.len() < 2 {
        return None;
    }
    let size = usize::from(behind[0]);
    let after = &behind[1..];
    if after.len() <= size {
        return None;
    }
    let (hop, rest) = after.split_at(size);
    let next_hop = next_hop_of(hop)?;
    Some(ReachHead {
        next_hop,
        reserved: rest[0],
        list: &rest[1..],
    })
}
