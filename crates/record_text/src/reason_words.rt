ghost use Rattle.std.specs.Prelude.{◌≡◌, Some};
ghost use Rattle.std.specs.Option.{option_map};
ghost use Rattle.text_words.specs.Reading.{Reads};
ghost use Rattle.wire_base.specs.Codes.{name_in};
ghost use Rattle.record_text.specs.DropReasons.{reason_rows};
ghost use Rattle.record_text.specs.Steps.{reason_word_text};

use crate::drop_names::drop_reasons;

/// The first word of a reason.
#[derive(Clone, Copy, Debug, PartialEq, Eq)]
pub(crate) enum ReasonWord {
    Rule,
    NshIngress,
    Ttl,
    NoPath,
    NoInstance,
    Denied,
    HopLimit,
    Meta,
    MetaFull,
    TooLong,
}

impl ReasonWord {
    /// The code of the word in the table of drop reasons.
    fn code(self) -> u16
        ensures { name_in reason_rows result ≡ Some (reason_word_text self) }
    {
        match self {
            ReasonWord::Rule => 0,
            ReasonWord::NshIngress => 1,
            ReasonWord::Ttl => 2,
            ReasonWord::NoPath => 3,
            ReasonWord::NoInstance => 4,
            ReasonWord::Denied => 5,
            ReasonWord::HopLimit => 6,
            ReasonWord::Meta => 7,
            ReasonWord::MetaFull => 8,
            ReasonWord::TooLong => 9,
        }
    }

    /// The word with a code; None where the table has no such code.
    fn with_code(code: u16) -> Option<ReasonWord>
        ensures { name_in reason_rows code ≡ option_map reason_word_text result }
    {
        match code {
            0 => Some(ReasonWord::Rule),
            1 => Some(ReasonWord::NshIngress),
            2 => Some(ReasonWord::Ttl),
            3 => Some(ReasonWord::NoPath),
            4 => Some(ReasonWord::NoInstance),
            5 => Some(ReasonWord::Denied),
            6 => Some(ReasonWord::HopLimit),
            7 => Some(ReasonWord::Meta),
            8 => Some(ReasonWord::MetaFull),
            9 => Some(ReasonWord::TooLong),
            _ => None,
        }
    }

    /// The reason that a word begins; None where it begins none.
    pub(crate) fn of(word: &[u8]) -> Option<ReasonWord>
        ensures { Reads (λ w. Unit {0}) reason_word_text word.now result }
    {
        let Ok(text) = str::from_utf8(word) else {
            return None;
        };
        let Some(code) = drop_reasons().code_of(text) else {
            return None;
        };
        ReasonWord::with_code(code)
    }

    /// The word as it is written.
    pub(crate) fn text(self) -> &'static str
        ensures { result.now ≡ reason_word_text self }
    {
        drop_reasons().name_of(self.code()).unwrap()
    }
}
