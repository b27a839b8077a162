ghost use Rattle.std.specs.Prelude.{◌≡◌, ◌+◌, ◌≤◌, length};
ghost use Rattle.net_frames.specs.Words.{word, with_word};

/// The word whose higher byte stands at `i`.
#[tactic(auto, unfolding(crate::specs::Words::word))]
pub(crate) fn word_at(bytes: &[u8], i: usize) -> u16
    requires { i + 2 ≤ length bytes.now }
    ensures { result ≡ word bytes.now i }
{
    u16::from(bytes[i]) << 8 | u16::from(bytes[i + 1])
}

/// Writes a word at `i`.
#[tactic(auto, unfolding(crate::specs::Words::with_word))]
pub(crate) fn put_word(bytes: &mut [u8], i: usize, number: u16)
    requires { i + 2 ≤ length bytes.old }
    ensures { bytes.new ≡ with_word bytes.old i number }
{
    bytes[i] = (number >> 8) as u8;
    bytes[i + 1] = (number & 0xff) as u8;
}
