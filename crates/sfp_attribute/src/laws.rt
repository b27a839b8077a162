//! What holds of the values of SFP attributes, whatever reads or writes them.

ghost use Rattle.std.specs.Prelude.{◌≡◌, ◌⊎◌, ℕ, List};
ghost use Rattle.wire_base.specs.Numbers.{AreBytes};
ghost use Rattle.sfp_attribute.specs.declared.faults.SfpFault.{SfpFault};
ghost use Rattle.sfp_attribute.specs.declared.sfps.Sfp.{Sfp};
ghost use Rattle.sfp_attribute.specs.Sfps.{IsSfp};
ghost use Rattle.sfp_attribute.specs.Refusals.{Refused};

/// Two readings of the same value are one: it is at most one attribute, it is not an attribute and refused, and it is refused
/// for one fault.
pub fn one_reading()
    ensures one_value { (value : List ℕ) (s t : Sfp) → IsSfp value s → IsSfp value t → s ≡ t }
    ensures never_both { (value : List ℕ) (s : Sfp) (fault : SfpFault) → IsSfp value s → Refused value fault → ⊥ }
    ensures one_refusal { (value : List ℕ) (f g : SfpFault) → Refused value f → Refused value g → f ≡ g }
{}

/// Every list of bytes is the value of an SFP attribute, or it is refused for a fault: there is no third.
pub fn every_value_is_read_or_refused()
    ensures { (value : List ℕ) → AreBytes value → ((s : Sfp) × IsSfp value s) ⊎ ((fault : SfpFault) × Refused value fault) }
{}
