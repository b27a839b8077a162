//! The order of routes, as numbers.

ghost use Rattle.std.specs.Prelude.{◌≡◌, ◌∷◌};
ghost use Rattle.std.specs.Cmp.Lexicographic.{slice_cmp};
ghost use Rattle.std.specs.Ordering.{nat_cmp, is_lt};
ghost use Rattle.sfc_routes.specs.RouteOrder.{key};

use bgp_update::Nlri;

/// The numbers that decide which of two routes comes first.
#[derive(Clone, Copy)]
pub(crate) struct RouteKey<'a> {
    peer: u16,
    /// SFIRs are 0, SFPRs 1, all others 2.
    rank: u8,
    /// The service function type, the SPI or the route type.
    number: u32,
    bytes: &'a [u8],
}

impl<'a> RouteKey<'a> {
    pub(crate) fn of(peer: u16, nlri: &'a Nlri) -> RouteKey<'a>
        ensures { (result.peer ∷ result.rank ∷ result.number ∷ result.bytes.now) ≡ key peer nlri.now }
    {
        match nlri {
            Nlri::Sfir { rd, kind } => RouteKey {
                peer,
                rank: 0,
                number: u32::from(*kind),
                bytes: rd.bytes(),
            },
            Nlri::Sfpr { rd, spi } => RouteKey {
                peer,
                rank: 1,
                number: spi.number(),
                bytes: rd.bytes(),
            },
            Nlri::Other { kind, body } => RouteKey {
                peer,
                rank: 2,
                number: u32::from(*kind),
                bytes: body.as_slice(),
            },
        }
    }

    /// Whether it comes before the other.
    pub(crate) fn is_before(&self, other: &RouteKey<'_>) -> bool
        ensures { result ≡ is_lt (slice_cmp nat_cmp (self.now.peer ∷ self.now.rank ∷ self.now.number ∷ self.now.bytes.now) (other.now.peer ∷ other.now.rank ∷ other.now.number ∷ other.now.bytes.now)) }
    {
        if self.peer != other.peer {
            return self.peer < other.peer;
        }
        if self.rank != other.rank {
            return self.rank < other.rank;
        }
        if self.number != other.number {
            return self.number < other.number;
        }
        self.bytes.cmp(other.bytes).is_lt()
    }
}
