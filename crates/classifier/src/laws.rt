//! What holds of verdicts and networks, whatever computed them.

ghost use Rattle.std.specs.Prelude.{◌≡◌, ℕ, ◌*◌, List, length};
ghost use Rattle.wire_base.specs.Numbers.{AreBytes};
ghost use Rattle.classifier.specs.declared.rules.Rule.{Rule};
ghost use Rattle.classifier.specs.declared.verdicts.Verdict.{Verdict};
ghost use Rattle.classifier.specs.Matching.{first_bits};
ghost use Rattle.classifier.specs.Verdicts.{Start};

/// A list of rules has one verdict on a frame.
pub fn a_frame_has_one_verdict()
    ensures { (rules : List Rule) (bytes : List ℕ) (v w : Verdict) → Start rules bytes v → Start rules bytes w → v ≡ w }
{}

/// All addresses of a family share their first 0 bits, and only equal ones share all of them.
pub fn networks_reach_from_all_addresses_to_one()
    ensures all { (xs ys : List ℕ) → AreBytes xs → AreBytes ys → length xs ≡ length ys → first_bits 0 xs ≡ first_bits 0 ys }
    ensures one { (xs ys : List ℕ) → AreBytes xs → AreBytes ys → length xs ≡ length ys → first_bits (8 * length xs) xs ≡ first_bits (8 * length xs) ys → xs ≡ ys }
{}
