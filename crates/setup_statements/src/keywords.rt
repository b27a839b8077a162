//! The words that begin a statement, and those that begin a function.

ghost use Rattle.std.specs.Prelude.{◌≡◌, IsTrue, ◌↔◌, Some};
ghost use Rattle.std.specs.Option.{option_map};
ghost use Rattle.text_words.specs.Reading.{Reads};
ghost use Rattle.wire_base.specs.Codes.{name_in};
ghost use Rattle.wire_base.specs.CodeNames.{function_rows};
ghost use Rattle.setup_statements.specs.Keywords.{keyword_text, function_word_text};

use wire_base::function_words;

/// The first word of a statement.
#[derive(Clone, Copy, Debug, PartialEq, Eq)]
pub enum Keyword {
    Local,
    Target,
    Peer,
    Forwarder,
    Ingress,
    Instance,
    Rule,
}

/// The first word of a function.
#[derive(Clone, Copy, Debug, PartialEq, Eq)]
pub(crate) enum FunctionWord {
    Pass,
    Firewall,
    Remark,
    Nat,
    HopLimit,
    PushVlan,
    PopVlan,
    Stamp,
    RequireMeta,
    ClearMeta,
}

/// Whether a word is this text.
pub(crate) fn is_text(word: &[u8], text: &[u8]) -> bool
    ensures { IsTrue result ↔ (word.now ≡ text.now) }
{
    word == text
}

impl Keyword {
    /// The statement that a word begins; None where it begins none.
    pub fn of(word: &[u8]) -> Option<Keyword>
        ensures { Reads (λ k. Unit {0}) keyword_text word.now result }
    {
        if is_text(word, b"local") {
            return Some(Keyword::Local);
        }
        if is_text(word, b"target") {
            return Some(Keyword::Target);
        }
        if is_text(word, b"peer") {
            return Some(Keyword::Peer);
        }
        if is_text(word, b"forwarder") {
            return Some(Keyword::Forwarder);
        }
        if is_text(word, b"ingress") {
            return Some(Keyword::Ingress);
        }
        if is_text(word, b"instance") {
            return Some(Keyword::Instance);
        }
        if is_text(word, b"rule") {
            return Some(Keyword::Rule);
        }
        None
    }
}

impl FunctionWord {
    /// The code of the word in the table of function words.
    fn code(self) -> u16
        ensures { name_in function_rows result ≡ Some (function_word_text self) }
    {
        match self {
            FunctionWord::Pass => 0,
            FunctionWord::Firewall => 1,
            FunctionWord::Remark => 2,
            FunctionWord::Nat => 3,
            FunctionWord::HopLimit => 4,
            FunctionWord::PushVlan => 5,
            FunctionWord::PopVlan => 6,
            FunctionWord::Stamp => 7,
            FunctionWord::RequireMeta => 8,
            FunctionWord::ClearMeta => 9,
        }
    }

    /// The word with a code; None where the table has no such code.
    fn with_code(code: u16) -> Option<FunctionWord>
        ensures { name_in function_rows code ≡ option_map function_word_text result }
    {
        match code {
            0 => Some(FunctionWord::Pass),
            1 => Some(FunctionWord::Firewall),
            2 => Some(FunctionWord::Remark),
            3 => Some(FunctionWord::Nat),
            4 => Some(FunctionWord::HopLimit),
            5 => Some(FunctionWord::PushVlan),
            6 => Some(FunctionWord::PopVlan),
            7 => Some(FunctionWord::Stamp),
            8 => Some(FunctionWord::RequireMeta),
            9 => Some(FunctionWord::ClearMeta),
            _ => None,
        }
    }

    /// The function that a word begins; None where it begins none.
    pub(crate) fn of(word: &[u8]) -> Option<FunctionWord>
        ensures { Reads (λ f. Unit {0}) function_word_text word.now result }
    {
        let Ok(text) = str::from_utf8(word) else {
            return None;
        };
        let Some(code) = function_words().code_of(text) else {
            return None;
        };
        FunctionWord::with_code(code)
    }

    /// The word as it is written.
    pub(crate) fn text(self) -> &'static str
        ensures { result.now ≡ function_word_text self }
    {
        function_words().name_of(self.code()).unwrap()
    }
}
