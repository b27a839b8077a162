//! The words of `to-pcapng`.

ghost use Rattle.std.specs.Prelude.{MatchOption};
ghost use Rattle.to_pcapng_command.specs.ToPcapngCommand.{ToPcapng, IsToPcapng};
ghost use Rattle.to_pcapng_command.specs.ToPcapngSteps.{to_pcapng_of};

use commands::Words;

/// What the words of `to-pcapng` say: the names of the two files.
#[derive(Clone, Copy)]
pub(crate) struct ToPcapngWords<'a> {
    pub(crate) capture: &'a str,
    pub(crate) made: &'a str,
}

/// Reads `to-pcapng CAPTURE MADE`.
pub(crate) fn to_pcapng_words(words: &Words) -> Option<ToPcapngWords<'_>>
    ensures { MatchOption result ((said : ToPcapng) → IsToPcapng words.now said → ⊥) (λ said. IsToPcapng words.now (to_pcapng_of said)) }
{
    if words.len() != 3 {
        return None;
    }
    if words.word(0) != "to-pcapng" {
        return None;
    }
    let (capture, made) = (words.word(1), words.word(2));
    if capture.is_empty() {
        return None;
    }
    if made.is_empty() {
        return None;
    }
    if made == capture {
        return None;
    }
    Some(ToPcapngWords { capture, made })
}
