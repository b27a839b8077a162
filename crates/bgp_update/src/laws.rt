//! What holds of the contents of updates, whatever reads or writes them.

ghost use Rattle.std.specs.Prelude.{◌≡◌, ◌⊎◌, ℕ, List};
ghost use Rattle.wire_base.specs.Numbers.{AreBytes};
ghost use Rattle.bgp_update.specs.declared.updates.Update.{Update};
ghost use Rattle.bgp_update.specs.Updates.{IsUpdate};
ghost use Rattle.bgp_update.specs.Refusals.{Refused};

/// Two readings of the same bytes are one: they are at most one update, they are not an update and refused, and they are
/// refused at one place.
pub fn one_reading()
    ensures one_update { (bytes : List ℕ) (u v : Update) → IsUpdate bytes u → IsUpdate bytes v → u ≡ v }
    ensures never_both { (bytes : List ℕ) (u : Update) (place : ℕ) → IsUpdate bytes u → Refused bytes place → ⊥ }
    ensures one_refusal { (bytes : List ℕ) (p q : ℕ) → Refused bytes p → Refused bytes q → p ≡ q }
{}

/// Every list of bytes is the content of an update, or it is refused at a place: there is no third.
pub fn every_content_is_read_or_refused()
    ensures { (bytes : List ℕ) → AreBytes bytes → ((u : Update) × IsUpdate bytes u) ⊎ ((place : ℕ) × Refused bytes place) }
{}
