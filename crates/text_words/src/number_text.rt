//! Numbers in decimal, without sign and leading zeros.

ghost use Rattle.std.specs.Prelude.{◌≡◌, ◌≤◌, ◌++◌, ◌↔◌, IsTrue, OnOk, OnErr};
ghost use Rattle.std.specs.Fmt.{decimal};
ghost use Rattle.text_words.specs.Reading.{Reads};
ghost use Rattle.text_words.specs.Numbers.{IsWithin};

use itoa::Buffer;
use wire_base::{Bytes, OutOfMemory};

/// Reads a number from `least` to `most`.
pub fn read_number(word: &[u8], least: u64, most: u64) -> Option<u64>
    ensures { Reads (IsWithin least most) decimal word.now result }
{
    let Ok(text) = str::from_utf8(word) else {
        return None;
    };
    let Ok(number) = text.parse::<u64>() else {
        return None;
    };
    // std reads `+7` and `007` as well. Only the number's own text is taken.
    if !is_spelled(word, number) {
        return None;
    }
    if number < least {
        return None;
    }
    if most < number {
        return None;
    }
    Some(number)
}

/// Whether a word is the text of a number.
fn is_spelled(word: &[u8], number: u64) -> bool
    ensures { IsTrue result ↔ (word.now ≡ decimal number) }
{
    let mut buffer = Buffer::new();
    *buffer.format(number).as_bytes() == *word
}

/// Appends a number.
pub fn print_number(out: &mut Bytes, number: u64) -> Result<(), OutOfMemory>
    ensures ok { OnOk result (out.new ≡ out.old ++ decimal number) }
    ensures err { OnErr result (out.new ≡ out.old) }
{
    let mut buffer = Buffer::new();
    out.push_all(buffer.format(number).as_bytes())
}
