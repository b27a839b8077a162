ghost use Rattle.std.specs.Prelude.{◌≡◌, ◌≢◌, MatchBool, IfOk};

use std::alloc::Global;
use wire_base::{Bytes, Fixed, OutOfMemory, Spi};

/// A route of the service function family: a route type, a length, a body (after RFC 9015, section 3).
#[derive(Debug, Drop)]
pub enum Nlri {
    /// Type 1, a service function instance route (SFIR): the route distinguisher (RD) and the service function type.
    Sfir { rd: Fixed<8>, kind: u16 },
    /// Type 2, a service function path route (SFPR): the RD and the service path identifier (SPI).
    Sfpr { rd: Fixed<8>, spi: Spi },
    /// Any other type, kept unread.
    Other { kind: u16, body: Bytes },
}

impl Nlri {
    /// Whether the two are one route: of one type, with the same body.
    pub fn same(&self, other: &Nlri) -> bool
        ensures { MatchBool result (self.now ≡ other.now) (self.now ≢ other.now) }
    {
        match self {
            Nlri::Sfir { rd, kind } => {
                let Nlri::Sfir {
                    rd: other_rd,
                    kind: other_kind,
                } = other
                else {
                    return false;
                };
                if rd != other_rd {
                    return false;
                }
                if kind != other_kind {
                    return false;
                }
                true
            }
            Nlri::Sfpr { rd, spi } => {
                let Nlri::Sfpr {
                    rd: other_rd,
                    spi: other_spi,
                } = other
                else {
                    return false;
                };
                if rd != other_rd {
                    return false;
                }
                if spi != other_spi {
                    return false;
                }
                true
            }
            Nlri::Other { kind, body } => {
                let Nlri::Other {
                    kind: other_kind,
                    body: other_body,
                } = other
                else {
                    return false;
                };
                if kind != other_kind {
                    return false;
                }
                body.same(other_body)
            }
        }
    }

    /// The same route.
    pub fn copy(&self, alloc: Global) -> Result<Nlri, OutOfMemory>
        ensures { IfOk result (λ copy. copy ≡ self.now) }
    {
        match self {
            Nlri::Sfir { rd, kind } => Ok(Nlri::Sfir {
                rd: *rd,
                kind: *kind,
            }),
            Nlri::Sfpr { rd, spi } => Ok(Nlri::Sfpr { rd: *rd, spi: *spi }),
            Nlri::Other { kind, body } => Ok(Nlri::Other {
                kind: *kind,
                body: body.copy(alloc)?,
            }),
        }
    }
}
