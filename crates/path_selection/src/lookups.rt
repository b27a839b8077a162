ghost use Rattle.std.specs.Prelude.{◌≡◌, ℕ, ◌-◌, ◌^◌, ◌<◌, ◌≤◌, List, MatchOption, IfSome, IfNone};
ghost use Rattle.path_selection.specs.Published.{Published, StartsWith, Rises, Answers};

use crate::answers::Answer;
use wire_base::Spi;

/// The answer of a published table, and the version of this table.
#[derive(Clone, Copy, Debug, PartialEq, Eq)]
pub struct Found {
    pub version: u64,
    pub answer: Answer,
}

/// What a forwarder looks paths up in: published tables, of which a newer one may come at any lookup.
pub trait Tables {
    /// What the tables come from, as data. No value of it is made.
    type Origin;

    // The published tables that are known.
    ghost known: { Self → List Published };

    // The version seen so far.
    ghost seen: { Self → ℕ };

    // How many lookups were refused.
    ghost refused: { Self → ℕ };

    ghost origin: { Self → Self.Origin };

    /// The answer of one of the known tables, none older than the one seen. It takes no memory and waits for nobody.
    /// None says that this lookup could not be made.
    fn lookup(&mut self, spi: Spi, si: u8) -> Option<Found>
        requires { refused self.old < 2 ^ 64 - 1 }
        ensures origin { origin self.new ≡ origin self.old }
        ensures grows { StartsWith (known self.new) (known self.old) }
        ensures answers { IfSome result (λ f. Answers (known self.new) spi si f) }
        ensures version { IfSome result (λ f. (seen self.old ≤ f.version) × (seen self.new ≡ f.version)) }
        ensures refused { MatchOption result (refused self.old < refused self.new) (λ _. refused self.new ≡ refused self.old) }
        ensures same { IfNone result ((known self.new ≡ known self.old) × (seen self.new ≡ seen self.old)) };

    ghost rises: { (s : Self) → Rises (known s) };
}
