ghost use Rattle.std.specs.Prelude.{◌≡◌};
ghost use Rattle.bgp_update.specs.Updates.{is_broken};

use crate::attributes::{Attribute, Body};
use crate::bodies::EXTENDED_COMMUNITIES;
use wire_base::{Bytes, List};

/// The content of an UPDATE (RFC 4271, section 4.3).
#[derive(Debug, Drop)]
pub struct Update {
    /// The withdrawn routes of IPv4, unread.
    pub withdrawn: Bytes,
    pub attributes: List<Attribute>,
    /// The announced routes of IPv4, unread.
    pub nlri: Bytes,
}

impl Update {
    /// Whether the first attribute of kind 16 (EXTENDED COMMUNITIES) is kept unread, since it holds no communities.
    pub fn broken(&self) -> bool
        ensures { result ≡ is_broken self.now }
    {
        for attribute in self.attributes.as_slice() {
            if attribute.kind == EXTENDED_COMMUNITIES {
                return matches!(attribute.body, Body::Raw(_));
            }
        }
        false
    }
}
