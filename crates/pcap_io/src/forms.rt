ghost use Rattle.std.specs.Prelude.{◌≡◌, ◌≤◌, length, take};
ghost use Rattle.pcap_io.specs.Heads.{half, word};

/// Which of the four forms a capture file has: the unit of its fractions of a second, nanoseconds or
/// microseconds, and the order of the bytes of its numbers, the highest or the lowest first.
#[derive(Clone, Copy, Debug, PartialEq, Eq)]
pub struct Form {
    pub nano: bool,
    pub big: bool,
}

/// The number that the first 4 bytes spell in the file's order.
#[tactic(auto, unfolding(crate::specs::Heads::word))]
pub fn word_at(form: Form, bytes: &[u8]) -> u32
    requires { 4 ≤ length bytes.now }
    ensures { word form result ≡ take 4 bytes.now }
{
    let cells = [bytes[0], bytes[1], bytes[2], bytes[3]];
    if form.big {
        u32::from_be_bytes(cells)
    } else {
        u32::from_le_bytes(cells)
    }
}

/// The 4 bytes of a number in the file's order.
#[tactic(auto, unfolding(crate::specs::Heads::word))]
pub fn word_bytes(form: Form, number: u32) -> [u8; 4]
    ensures { result ≡ word form number }
{
    if form.big {
        number.to_be_bytes()
    } else {
        number.to_le_bytes()
    }
}

/// The 2 bytes of a number in the file's order.
#[tactic(auto, unfolding(crate::specs::Heads::half))]
pub fn half_bytes(form: Form, number: u16) -> [u8; 2]
    ensures { result ≡ half form number }
{
    if form.big {
        number.to_be_bytes()
    } else {
        number.to_le_bytes()
    }
}
