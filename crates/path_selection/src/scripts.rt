ghost use Rattle.std.specs.Prelude.{◌≡◌, ◌+◌, ◌^◌, ◌<◌, ◌≤◌, drop, length, slice_index};
ghost use Rattle.path_selection.specs.Published.{Answers};
ghost use Rattle.path_selection.specs.Scripted.{IsScript, TakesPick, numbered};

use crate::lookups::{Found, Tables};
use crate::path_tables::Table;
use std::marker::Model;
use wire_base::{List, Spi};

/// A list of tables, and which of them answers each lookup, for tests: it names the picked versions in turn, and stays
/// at the last pick.
#[derive(Drop)]
pub struct Script {
    tables: List<Table>,
    first: u64,
    picks: List<u64>,
    next: usize,
    seen: u64,
}

impl Model for Script {
    ghost use Rattle.std.specs.Prelude.{◌<◌, ◌≤◌, length, drop, slice_index};
    ghost use Rattle.path_selection.specs.Scripted.{IsScript, Scripted};

    ghost Value = { Scripted };

    ghost view = { λ s. record { tables = s.tables; first = s.first; left = drop s.next s.picks; seen = s.seen } };

    ghost invariant = { λ s. IsScript (length s.tables) s.first s.picks × (s.next < length s.picks) × (s.seen ≤ slice_index s.picks s.next) };
}

impl Script {
    /// The tables, of the versions from the first on, and the versions that answer.
    pub fn new(tables: List<Table>, first: u64, picks: List<u64>) -> Script
        requires { (0 < length picks) × IsScript (length tables) first picks }
        ensures { result ≡ record { tables = tables; first = first; left = picks; seen = first } }
    {
        Script {
            tables,
            first,
            picks,
            next: 0,
            seen: first,
        }
    }

    /// The answer of the table of the next pick.
    pub fn look(&mut self, spi: Spi, si: u8) -> Found
        ensures pick { TakesPick self.old.left result.version self.new.left }
        ensures answers { Answers (numbered self.old.first self.old.tables) spi si result }
        ensures version { (self.old.seen ≤ result.version) × (self.new.seen ≡ result.version) }
        ensures same { (self.new.tables ≡ self.old.tables) × (self.new.first ≡ self.old.first) }
    {
        let version = self.picks.as_slice()[self.next];
        let at = (version - self.first) as usize;
        let answer = self.tables.as_slice()[at].answer(spi, si);
        self.next = next_place(self.picks.as_slice(), self.next);
        self.seen = version;
        Found { version, answer }
    }
}

/// The place of the pick behind one, or of this one where it is the last.
fn next_place(picks: &[u64], place: usize) -> usize
    requires { place < length picks.now }
    ensures inside { (place ≤ result) × (result < length picks.now) }
    ensures pick { TakesPick (drop place picks.now) (slice_index picks.now place) (drop result picks.now) }
{
    if place + 1 < picks.len() {
        place + 1
    } else {
        place
    }
}

impl Tables for Script {
    ghost use Rattle.path_selection.specs.Scripted.{numbered, numbered-rises};

    type Origin = ();

    ghost known = { λ s. numbered s.first s.tables };

    ghost seen = { λ s. s.seen };

    ghost refused = { λ _. 0 };

    ghost origin = { λ _. tt };

    fn lookup(&mut self, spi: Spi, si: u8) -> Option<Found> {
        Some(self.look(spi, si))
    }

    ghost rises = { λ s. numbered-rises s.first s.tables };
}
