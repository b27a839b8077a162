//! What holds of headers and refusals, whatever reads them.

ghost use Rattle.std.specs.Prelude.{◌≡◌, ℕ, List, take};
ghost use Rattle.wire_base.specs.Numbers.{AreBytes};
ghost use Rattle.nsh_headers.specs.declared.faults.NshFault.{NshFault};
ghost use Rattle.nsh_metadata.specs.Header.{Header, BeginsWith};
ghost use Rattle.nsh_metadata.specs.Refusal.{Refused};
ghost use Rattle.nsh_metadata.specs.Kept.{Kept};
ghost use Rattle.nsh_metadata.specs.Feed.{Stands};

/// Bytes begin with one header at most.
pub fn one_header()
    ensures { (b : List ℕ) (h k : Header) (n m : ℕ) → BeginsWith b h n → BeginsWith b k m → (n ≡ m) × (h ≡ k) }
{}

/// A header has one spelling, so what was read is written back byte for byte.
pub fn one_spelling()
    ensures { (a b : List ℕ) (h : Header) (n m : ℕ) → AreBytes a → AreBytes b → BeginsWith a h n → BeginsWith b h m → take n a ≡ take m b }
{}

/// Bytes have one refusal at most.
pub fn one_refusal()
    ensures { (b : List ℕ) (f g : NshFault) → Refused b f → Refused b g → f ≡ g }
{}

/// Bytes that begin with a header are not refused.
pub fn spelled_is_not_refused()
    ensures { (b : List ℕ) (h : Header) (n : ℕ) (f : NshFault) → BeginsWith b h n → Refused b f → ⊥ }
{}

/// What a feed gave and what it keeps depends on the bytes that it took, and not on how they were cut into
/// pieces.
pub fn any_cutting()
    ensures { (a b : Kept) (taken : List ℕ) (given others : List Header) → Stands a taken given → Stands b taken others → (given ≡ others) × (a ≡ b) }
{}
