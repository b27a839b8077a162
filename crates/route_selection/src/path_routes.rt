use sfc_routes::Rd;
use sfp_attribute::Sfp;
use std::marker::Model;
use wire_base::Spi;

/// What counts of an accepted path route (RFC 9015, section 3.2).
#[derive(Drop)]
pub(crate) struct PathEntry<'a> {
    pub(crate) spi: Spi,
    pub(crate) rd: Rd,
    /// The peer that announced it.
    pub(crate) peer: u16,
    pub(crate) sfp: &'a Sfp,
}

impl<'a> Model for PathEntry<'a> {
    ghost use Rattle.route_selection.specs.Accepted.{PathRoute};

    ghost Value = { PathRoute };

    ghost view = { λ p. record { spi = p.spi; rd = p.rd; peer = p.peer; sfp = p.sfp.now } };
}
