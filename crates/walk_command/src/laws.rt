//! What a walk's egress holds, whatever writes it.

ghost use Rattle.std.specs.Prelude.{◌≡◌, ◌≤◌, ◌<◌, ℕ, List, Option};
ghost use Rattle.wire_base.specs.Numbers.{AreBytes};
ghost use Rattle.pcap_io.specs.declared.reasons.Refusal.{Refusal};
ghost use Rattle.commands.specs.Fronts.{IsFront};
ghost use Rattle.walk_command.specs.WalkCommand.{Writes, WroteFront, whole_egress, bare_egress};

/// What `walk` writes are all whole frames of the capture up to 61 functions, and none above.
pub fn every_frame_comes_out_or_none()
    ensures every { (spi count : ℕ) (input output : List ℕ) (stop : Option Refusal) → 1 ≤ count → count ≤ 61
        → (writes : Writes spi count input stop output) → output ≡ whole_egress writes.form writes.frames }
    ensures none { (spi count : ℕ) (input output : List ℕ) (stop : Option Refusal) → 61 < count → count ≤ 255
        → (writes : Writes spi count input stop output) → output ≡ bare_egress writes.form }
{}

/// Each input has an output that is written for it.
pub fn every_input_is_written()
    ensures { (spi count : ℕ) (input : List ℕ) → count ≤ 255 → AreBytes input
        → (stop : Option Refusal) × (output : List ℕ) × Writes spi count input stop output }
{}

/// It has one, and one end.
pub fn one_egress()
    ensures { (spi count : ℕ) (input output other : List ℕ) (stop halt : Option Refusal) → 1 ≤ count → count ≤ 255
        → Writes spi count input stop output → Writes spi count input halt other → (output ≡ other) × (stop ≡ halt) }
{}

/// What was written where the walk did not end is a front of what is written for the whole input.
pub fn a_front_is_of_the_whole()
    ensures { (spi count : ℕ) (input written output : List ℕ) (stop : Option Refusal) → 1 ≤ count → count ≤ 255
        → WroteFront spi count input written → Writes spi count input stop output → IsFront written output }
{}
