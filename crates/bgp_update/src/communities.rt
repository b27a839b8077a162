ghost use Rattle.std.specs.Prelude.{◌≡◌, ◌%◌, ◌<◌, ◌++◌, length, IfOk, MatchBool, MatchOption};
ghost use Rattle.bgp_update.specs.Attributes.{HasCommunities};
ghost use Rattle.bgp_update.specs.Steps.{ReadsPieces};

use std::alloc::Global;
use wire_base::{Fixed, List, OutOfMemory};

/// The bytes of one extended community (RFC 4360, section 2).
const COMMUNITY: usize = 8;

/// Whether an attribute of kind 16 holds communities: it is optional and transitive, and not empty, in pieces of 8 bytes.
pub(crate) fn has_communities(flags: u8, value: &[u8]) -> bool
    ensures { MatchBool result (HasCommunities flags value.now) (¬ HasCommunities flags value.now) }
{
    flags >> 6 == 3 && value.len() % COMMUNITY == 0 && !value.is_empty()
}

/// The first 8 bytes and what follows. None exactly where there are fewer.
fn first_of(bytes: &[u8]) -> Option<(Fixed<8>, &[u8])>
    ensures { MatchOption result (length bytes.now < 8) (λ p. (bytes.now ≡ p.0 ++ p.1.now) × (length p.0 ≡ 8)) }
{
    if bytes.len() < COMMUNITY {
        return None;
    }
    let (first, rest) = bytes.split_at(COMMUNITY);
    let community = Fixed::of(first)?;
    Some((community, rest))
}

/// The communities that fill the value.
pub(crate) fn read_communities(alloc: Global, value: &[u8]) -> Result<List<Fixed<8>>, OutOfMemory>
    requires { length value.now % 8 ≡ 0 }
    ensures { IfOk result (λ communities. ReadsPieces value.now communities) }
{
    let mut communities = List::new(alloc);
    let mut rest = value;
    while let Some((community, behind)) = first_of(rest) {
        communities.push(community)?;
        rest = behind;
    }
    Ok(communities)
}
