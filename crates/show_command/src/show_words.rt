//! The words of `show`.

ghost use Rattle.std.specs.Prelude.{◌≡◌, ◌≢◌, MatchOption};
ghost use Rattle.show_command.specs.ShowCommand.{Show, IsShow, format_word};
ghost use Rattle.show_command.specs.ShowSteps.{show_of};

use commands::Words;

/// What the bytes of a source are taken for.
#[derive(Clone, Copy, Debug, PartialEq, Eq)]
pub(crate) enum Format {
    /// A Network Service Header and what follows it.
    Nsh,
    /// A stream of BGP messages.
    Bgp,
}

/// What the words of `show` say: the format, and the name of the file.
#[derive(Clone, Copy)]
pub(crate) struct ShowWords<'a> {
    pub(crate) format: Format,
    pub(crate) source: &'a str,
}

/// The format that the word names.
fn format_named(word: &str) -> Option<Format>
    ensures { MatchOption result ((format : _) → word.now ≢ format_word format) (λ format. word.now ≡ format_word format) }
{
    if word == "nsh" {
        return Some(Format::Nsh);
    }
    if word == "bgp" {
        return Some(Format::Bgp);
    }
    None
}

/// Reads `show FORMAT FILE`.
pub(crate) fn show_words(words: &Words) -> Option<ShowWords<'_>>
    ensures { MatchOption result ((show : Show) → IsShow words.now show → ⊥) (λ said. IsShow words.now (show_of said)) }
{
    if words.len() != 3 {
        return None;
    }
    if words.word(0) != "show" {
        return None;
    }
    let Some(format) = format_named(words.word(1)) else {
        return None;
    };
    let source = words.word(2);
    if source.is_empty() {
        return None;
    }
    Some(ShowWords { format, source })
}
