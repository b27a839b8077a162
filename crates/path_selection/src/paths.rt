ghost use Rattle.std.specs.Prelude.{◌≡◌, MatchOption};
ghost use Rattle.path_selection.specs.Paths.{ArePathRows};

use crate::hops::HopRow;
use crate::searches::falls_below;
use std::marker::Model;
use wire_base::{List, Spi};

/// A service path: its identifier (SPI) and its hops. The service indexes of the hops fall strictly, and none is 0.
#[derive(Debug, Drop)]
pub struct Path {
    spi: Spi,
    rows: List<HopRow>,
}

impl Model for Path {
    ghost use Rattle.path_selection.specs.Paths.{ArePathRows, ServicePath};

    ghost Value = { ServicePath };

    ghost view = { λ p. record { spi = p.spi; rows = p.rows } };

    ghost invariant = { λ p. ArePathRows p.rows };
}

impl Path {
    /// The path with this identifier and these hops; None exactly where their service indexes do not fall strictly,
    /// or one of them is 0.
    pub fn of(spi: Spi, rows: List<HopRow>) -> Option<Path>
        ensures { MatchOption result (¬ (ArePathRows rows)) (λ path. path ≡ record { spi = spi; rows = rows }) }
    {
        if falls_below(256, rows.as_slice()) {
            Some(Path { spi, rows })
        } else {
            None
        }
    }

    /// The service path identifier.
    pub fn spi(&self) -> Spi
        ensures value { result ≡ self.now.spi }
        ensures kept { ArePathRows self.now.rows }
    {
        self.spi
    }

    /// The hops, that with the greatest service index first.
    pub fn rows(&self) -> &[HopRow]
        ensures value { result.now ≡ self.now.rows }
        ensures kept { ArePathRows self.now.rows }
    {
        self.rows.as_slice()
    }
}
