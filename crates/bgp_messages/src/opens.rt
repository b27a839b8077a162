ghost use Rattle.std.specs.Prelude.{◌≡◌, find};
ghost use Rattle.std.specs.Option.{option_map};
ghost use Rattle.wire_base.specs.Numbers.{big_endian};
ghost use Rattle.bgp_messages.specs.Opens.{carries_as, peer_as_of};

use wire_base::{Bytes, List, be_u32};

/// The content of an OPEN (RFC 4271, section 4.2). Its version is 4.
#[derive(Debug, Drop)]
pub struct Open {
    /// The 2-byte AS field; 23456 where the AS needs 4 bytes (RFC 6793, section 9).
    pub my_as: u16,
    /// The hold time in seconds: 0, or 3 and more.
    pub hold: u16,
    /// The BGP identifier, not 0.
    pub id: u32,
    /// The optional parameters, each of type 2 (RFC 5492, section 4).
    pub params: List<Param>,
}

/// An optional parameter of type 2: a list of capabilities.
#[derive(Debug, Drop)]
pub struct Param {
    pub caps: List<Capability>,
}

/// A capability, of any code and body.
#[derive(Debug, Drop)]
pub struct Capability {
    pub code: u8,
    pub body: Bytes,
}

/// The capability of an AS number of 4 bytes, and how many bytes its body has (RFC 6793, section 3).
const FOUR_OCTET_AS: u8 = 65;

const AS_BYTES: usize = 4;

/// The AS of the first capability that carries one.
fn carried_as(caps: &[Capability]) -> Option<u32>
    ensures { result ≡ option_map (λ c. big_endian c.body) (find carries_as caps.now) }
{
    for capability in caps {
        let body = capability.body.as_slice();
        if capability.code == FOUR_OCTET_AS && body.len() == AS_BYTES {
            return Some(be_u32(body));
        }
    }
    None
}

impl Open {
    /// The peer's AS: that of the first capability that carries one of 4 bytes, else that of the 2-byte field
    /// (RFC 6793, section 4.1).
    pub fn peer_as(&self) -> u32
        ensures { result ≡ peer_as_of self.now }
    {
        for param in self.params.as_slice() {
            if let Some(number) = carried_as(param.caps.as_slice()) {
                return number;
            }
        }
        u32::from(self.my_as)
    }
}
