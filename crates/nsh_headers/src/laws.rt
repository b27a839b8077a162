//! What holds of heads and refusals, whatever reads them.

ghost use Rattle.std.specs.Prelude.{◌≡◌, ℕ, List, take};
ghost use Rattle.wire_base.specs.Numbers.{AreBytes};
ghost use Rattle.nsh_headers.specs.declared.heads.NshHead.{NshHead};
ghost use Rattle.nsh_headers.specs.declared.faults.NshFault.{NshFault};
ghost use Rattle.nsh_headers.specs.Head.{IsHead, IsSized};
ghost use Rattle.nsh_headers.specs.Refusal.{HeadRefused};

/// Bytes spell one head at most.
pub fn one_head()
    ensures { (b : List ℕ) (h k : NshHead) → IsHead b h → IsHead b k → h ≡ k }
{}

/// A head has one spelling: bytes that spell it are the same in their first 8.
pub fn one_spelling()
    ensures { (a b : List ℕ) (h : NshHead) → AreBytes a → AreBytes b → IsHead a h → IsHead b h → take 8 a ≡ take 8 b }
{}

/// Bytes have one refusal at most.
pub fn one_refusal()
    ensures { (b : List ℕ) (f g : NshFault) → HeadRefused b f → HeadRefused b g → f ≡ g }
{}

/// What spells a head whose Length fits its MD Type is never refused.
pub fn spelled_is_not_refused()
    ensures { (b : List ℕ) (h : NshHead) (f : NshFault) → IsHead b h → IsSized h.base.md h.base.words → HeadRefused b f → ⊥ }
{}
