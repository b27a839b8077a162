ghost use Rattle.std.specs.Prelude.{◌≡◌, [], ◌∷◌};

use crate::lookups::{Found, Tables};
use crate::path_tables::Table;
use std::marker::Model;
use wire_base::Spi;

/// One table, which stays the only one.
#[derive(Drop)]
pub struct Still<'a> {
    table: &'a Table,
    version: u64,
}

impl<'a> Model for Still<'a> {
    ghost use Rattle.path_selection.specs.Published.{Published};

    ghost Value = { Published };

    ghost view = { λ s. record { version = s.version; table = s.table.now } };
}

impl<'a> Still<'a> {
    /// The one table, under this version.
    pub fn new(table: &'a Table, version: u64) -> Still<'a>
        ensures { result ≡ record { version = version; table = table.now } }
    {
        Still { table, version }
    }
}

impl<'a> Tables for Still<'a> {
    ghost use Rattle.path_selection.specs.Published.{one_table, one_table-rises};

    type Origin = ();

    ghost known = { λ s. one_table s.version s.table };

    ghost seen = { λ s. s.version };

    ghost refused = { λ _. 0 };

    ghost origin = { λ _. tt };

    fn lookup(&mut self, spi: Spi, si: u8) -> Option<Found> {
        Some(Found {
            version: self.version,
            answer: self.table.answer(spi, si),
        })
    }

    ghost rises = { λ s. one_table-rises s.version s.table };
}
