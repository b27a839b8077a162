//! Words at the end of a buffer.

ghost use Rattle.std.specs.Prelude.{◌≡◌, ◌++◌, OnOk, OnErr};
ghost use Rattle.std.specs.Fmt.{decimal};
ghost use Rattle.text_words.specs.Printing.{AppendsFront};

use text_words::print_number;
use wire_base::{Bytes, OutOfMemory};

/// Appends a word.
pub(crate) fn say(out: &mut Bytes, word: &[u8]) -> Result<(), OutOfMemory>
    ensures ok { OnOk result (out.new ≡ out.old ++ word.now) }
    ensures err { OnErr result (AppendsFront out.old word.now out.new) }
{
    out.push_all(word)
}

/// Appends a word and a number.
pub(crate) fn say_number(out: &mut Bytes, word: &[u8], number: u64) -> Result<(), OutOfMemory>
    ensures ok { OnOk result (out.new ≡ out.old ++ (word.now ++ decimal number)) }
    ensures err { OnErr result (AppendsFront out.old (word.now ++ decimal number) out.new) }
{
    out.push_all(word)?;
    print_number(out, number)?;
    Ok(())
}
