ghost use Rattle.std.specs.Prelude.{◌≡◌, ℕ, List, ◌++◌, ◌⊎◌};
ghost use Rattle.std.specs.List.{flat_map, AllByRecursion};
ghost use Rattle.wire_base.specs.Numbers.{AreBytes};
ghost use Rattle.bgp_messages.specs.declared.messages.Message.{Message};
ghost use Rattle.bgp_messages.specs.Messages.{spelling, Fits, Cuts, BeginsNone};
ghost use Rattle.bgp_messages.specs.Refusals.{Told, Refused, Held};

/// Two readings of the same bytes are one: no spelling of a message begins another, whatever follows; no bytes begin with a
/// message and are refused; a refusal is one; and a stream is cut in one way, of which the messages up to any point are the
/// first.
pub fn one_reading()
    ensures one_message { (m n : Message) (x y : List ℕ) → Fits m → Fits n → spelling m ++ x ≡ spelling n ++ y → (m ≡ n) × (x ≡ y) }
    ensures never_both { (bytes : List ℕ) (t : Told) → Refused bytes t → BeginsNone bytes }
    ensures one_refusal { (bytes : List ℕ) (s t : Told) → Refused bytes s → Refused bytes t → s ≡ t }
    ensures one_cut { (stream : List ℕ) (ms ns : List Message) (x y : List ℕ) → Cuts stream ms x → Cuts stream ns y → (ms ≡ ns) × (x ≡ y) }
    ensures first_of_cut { (stream : List ℕ) (ms all : List Message) (x y : List ℕ) → stream ≡ flat_map spelling ms ++ x → AllByRecursion Fits ms
        → Cuts stream all y → (more : List Message) × (all ≡ ms ++ more) }
{}

/// Bytes are refused, or held, or begin with a message: there is no fourth. So every stream is cut into messages and a rest.
pub fn every_stream_is_cut()
    ensures one_of_three { (bytes : List ℕ) → AreBytes bytes
        → ((t : Told) × Refused bytes t) ⊎ (Held bytes ⊎ ((m : Message) × (more : List ℕ) × Fits m × (bytes ≡ spelling m ++ more))) }
    ensures some_cut { (stream : List ℕ) → AreBytes stream → (ms : List Message) × (rest : List ℕ) × Cuts stream ms rest }
{}

/// A refusal stands whatever follows.
pub fn a_refusal_stands()
    ensures { (bytes more : List ℕ) (t : Told) → Refused bytes t → Refused (bytes ++ more) t }
{}
