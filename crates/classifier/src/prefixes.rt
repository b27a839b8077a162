//! When an address is in a network.

ghost use Rattle.std.specs.Prelude.{◌≡◌, ◌*◌, ◌≤◌, length, MatchBool};
ghost use Rattle.classifier.specs.Rules.{IsPrefix};
ghost use Rattle.classifier.specs.Matching.{first_bits, IsIn};

use crate::rules::Prefix;
use wire_base::NextHop;

/// Whether the address is of the network's family and has the network's first bits.
pub(crate) fn is_in(network: &Prefix, address: &NextHop) -> bool
    requires { IsPrefix network.now }
    ensures { MatchBool result (IsIn network.now address.now) (¬ (IsIn network.now address.now)) }
{
    match (&network.address, address) {
        (NextHop::Four(asked), NextHop::Four(found)) => {
            share_bits(asked.bytes(), found.bytes(), network.bits)
        }
        (NextHop::Sixteen(asked), NextHop::Sixteen(found)) => {
            share_bits(asked.bytes(), found.bytes(), network.bits)
        }
        _ => false,
    }
}

/// Whether the first `bits` bits of both are the same.
fn share_bits(asked: &[u8], found: &[u8], bits: u8) -> bool
    requires same_length { length asked.now ≡ length found.now }
    requires in_range { bits ≤ 8 * length asked.now }
    ensures { MatchBool result (first_bits bits asked.now ≡ first_bits bits found.now) (¬ (first_bits bits asked.now ≡ first_bits bits found.now)) }
{
    let whole = usize::from(bits / 8);
    if asked[..whole] != found[..whole] {
        return false;
    }
    let rest = bits % 8;
    if rest == 0 {
        return true;
    }
    asked[whole] >> (8 - rest) == found[whole] >> (8 - rest)
}
