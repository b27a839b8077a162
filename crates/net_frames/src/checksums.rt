ghost use Rattle.std.specs.Prelude.{◌≡◌, ◌+◌, ◌≤◌, ◌<◌, length};
ghost use Rattle.net_frames.specs.Checksums.{fold, adjust, reworded};

use crate::words::{put_word, word_at};

/// Adds the carries of a sum into it until none is left.
pub(crate) fn fold_carries(mut sum: u32) -> u16
    ensures { result ≡ fold sum }
{
    while sum > 0xffff {
        sum = (sum & 0xffff) + (sum >> 16);
    }
    sum as u16
}

/// The checksum over words of which one was `before` and is `after` (RFC 1624, equation 3).
#[tactic(auto, unfolding(crate::specs::Checksums::adjust))]
pub(crate) fn adjusted(checksum: u16, before: u16, after: u16) -> u16
    ensures { result ≡ adjust checksum before after }
{
    let sum = u32::from(!checksum) + u32::from(!before) + u32::from(after);
    !fold_carries(sum)
}

/// Writes a word at `i`, and adjusts the checksum at `sum` for it.
#[tactic(auto, unfolding(crate::specs::Checksums::reworded))]
pub(crate) fn reword(bytes: &mut [u8], sum: usize, i: usize, number: u16)
    requires sum_captured { sum + 2 ≤ length bytes.old }
    requires word_captured { i + 2 ≤ length bytes.old }
    ensures value { bytes.new ≡ reworded bytes.old sum i number }
    ensures len { length bytes.new ≡ length bytes.old }
{
    let checksum = adjusted(word_at(bytes, sum), word_at(bytes, i), number);
    put_word(bytes, i, number);
    put_word(bytes, sum, checksum);
}
