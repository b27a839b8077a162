//! A seat, from which one thread looks paths up.

ghost use Rattle.std.specs.Prelude.{◌≡◌, ◌+◌, ◌-◌, ◌^◌, ◌<◌, ◌⊎◌, MatchOption};
ghost use Rattle.table_publish.specs.Publications.{Extends};
ghost use Rattle.table_publish.specs.Views.{HasLooked};

use crate::books::WindowSeen;
use crate::entries::Window;
use crate::tolds::Told;
use path_selection::{Found, Tables};
use std::marker::Model;
use wire_base::Spi;

/// A seat of a window, for one thread. Each lookup that answers does so from a version that is none older than those
/// that it named or learned of.
#[derive(Drop)]
pub struct Seat {
    // The newest that it saw or learned of, which the next lookup begins with.
    newest: Told,
    // What it saw itself.
    pub(crate) seen: WindowSeen,
    refused: u64,
}

impl Model for Seat {
    ghost use Rattle.table_publish.specs.Entries.{published_of};
    ghost use Rattle.table_publish.specs.Rules.{Sits};
    ghost use Rattle.table_publish.specs.Views.{SeatView};

    ghost Value = { SeatView };

    ghost view = { λ s. record { window = s.newest.window; seen = published_of s.seen.log; newest = s.newest.published; refused = s.refused } };

    ghost invariant = { λ s. Sits s.newest s.seen };
}

impl Seat {
    /// A seat that has seen what is told.
    pub(crate) fn new(told: Told) -> Seat
        ensures { result ≡ record { window = told.window; seen = told.published; newest = told.published; refused = 0 } }
    {
        let seen = told.list();
        Seat {
            newest: told,
            seen,
            refused: 0,
        }
    }

    /// How many lookups were refused.
    pub fn refused_count(&self) -> u64
        ensures { result ≡ self.now.refused }
    {
        self.refused
    }

    /// Each later lookup answers from the version that was told, or from a newer one. It takes no memory and waits for
    /// nobody.
    pub fn learn(&mut self, told: Told)
        requires { told.window ≡ self.old.window }
        ensures same { (self.new.window ≡ self.old.window) × (self.new.seen ≡ self.old.seen) × (self.new.refused ≡ self.old.refused) }
        ensures told { Extends self.new.newest told.published }
        ensures kept { Extends self.new.newest self.old.newest }
        ensures one { (self.new.newest ≡ told.published) ⊎ (self.new.newest ≡ self.old.newest) }
    {
        if !self.newest.is_older(&told) {
            return;
        }
        self.newest = told;
    }

    /// The answer of the last version that is then seen. None where the seat was not let in: the count of refused
    /// lookups rises, and nothing else changes.
    pub fn look(&mut self, spi: Spi, si: u8) -> Option<Found>
        requires { self.old.refused < 2 ^ 64 - 1 }
        ensures { MatchOption result (self.new ≡ record self.old { refused = self.old.refused + 1 }) (HasLooked self.old self.new spi si) }
    {
        let Some(answer) = self.newest.look(spi, si) else {
            self.refused += 1;
            return None;
        };
        self.seen = self.newest.list();
        Some(Found {
            version: self.newest.version(),
            answer,
        })
    }
}

impl Tables for Seat {
    ghost use Rattle.table_publish.specs.Publications.{known_of, known_of-rises, version_of};

    type Origin = Window;

    ghost known = { λ s. known_of s.seen };

    ghost seen = { λ s. version_of s.newest };

    ghost refused = { λ s. s.refused };

    ghost origin = { λ s. s.window };

    fn lookup(&mut self, spi: Spi, si: u8) -> Option<Found> {
        self.look(spi, si)
    }

    ghost rises = { λ s. known_of-rises s.seen };
}
