//! The words of `from-pcapng`.

ghost use Rattle.std.specs.Prelude.{◌≡◌, ◌≢◌, ℕ, ◌^◌, ◌<◌, Option, IfSome, MatchOption};
ghost use Rattle.from_pcapng_command.specs.FromPcapngCommand.{FromPcapng, IsFromPcapng, interface_word};
ghost use Rattle.from_pcapng_command.specs.FromPcapngSteps.{from_pcapng_of};

use commands::Words;
use text_words::read_number;

/// What the words of `from-pcapng` say: the names of the two files, and the number of the interface, or `None` for every one.
#[derive(Clone, Copy)]
pub(crate) struct FromPcapngWords<'a> {
    pub(crate) source: &'a str,
    pub(crate) interface: Option<u32>,
    pub(crate) made: &'a str,
}

/// The interface that a word asks for: `Some(None)` for `*`, and `None` where it asks for none.
fn read_interface(word: &str) -> Option<Option<u32>>
    ensures { MatchOption result ((asked : Option ℕ) → IfSome asked (λ number. number < 2 ^ 32) → word.now ≢ interface_word asked)
        (λ asked. IfSome asked (λ number. number < 2 ^ 32) × (word.now ≡ interface_word asked)) }
{
    if word == "*" {
        return Some(None);
    }
    match read_number(word.as_bytes(), 0, 0xFFFF_FFFF) {
        Some(number) => Some(Some(number as u32)),
        None => None,
    }
}

/// Reads `from-pcapng SOURCE INTERFACE MADE`.
pub(crate) fn from_pcapng_words(words: &Words) -> Option<FromPcapngWords<'_>>
    ensures { MatchOption result ((said : FromPcapng) → IsFromPcapng words.now said → ⊥) (λ said. IsFromPcapng words.now (from_pcapng_of said)) }
{
    if words.len() != 4 {
        return None;
    }
    if words.word(0) != "from-pcapng" {
        return None;
    }
    let Some(interface) = read_interface(words.word(2)) else {
        return None;
    };
    let (source, made) = (words.word(1), words.word(3));
    if source.is_empty() {
        return None;
    }
    if made.is_empty() {
        return None;
    }
    if made == source {
        return None;
    }
    Some(FromPcapngWords {
        source,
        interface,
        made,
    })
}
