//! Names of forwarders and instances.

ghost use Rattle.std.specs.Prelude.{◌≡◌, ◌↔◌, IsTrue};
ghost use Rattle.text_words.specs.Reading.{Reads};
ghost use Rattle.text_words.specs.Names.{is_name_byte as name_byte_of, IsName};

use arrayvec::ArrayString;
use std::marker::Model;

/// A name: 1 to 16 characters of a to z, 0 to 9 and `-`, the first of them a letter.
#[derive(Debug, Drop)]
pub struct Name {
    held: ArrayString<16>,
}

impl Model for Name {
    ghost use Rattle.std.specs.Prelude.{ℕ, List};
    ghost use Rattle.text_words.specs.Names.{IsName};

    ghost Value = { List ℕ };

    ghost view = { λ n. n.held.bytes };

    ghost invariant = { λ n. IsName n.held.bytes };
}

impl Name {
    /// The name that a word spells.
    pub fn of(word: &[u8]) -> Option<Name>
        ensures { Reads IsName (λ n. n) word.now result }
    {
        if !is_name(word) {
            return None;
        }
        let Ok(text) = str::from_utf8(word) else {
            return None;
        };
        let Ok(held) = ArrayString::from(text) else {
            return None;
        };
        Some(Name { held })
    }

    /// The name's characters.
    pub fn as_str(&self) -> &str
        ensures value { result.now ≡ self.now }
        ensures form { IsName self.now }
    {
        self.held.as_str()
    }
}

/// Whether a byte may stand in a name.
fn is_name_byte(byte: u8) -> bool
    ensures { result ≡ name_byte_of byte }
{
    byte.is_ascii_lowercase() || byte.is_ascii_digit() || byte == b'-'
}

/// Whether a word is a name.
pub(crate) fn is_name(word: &[u8]) -> bool
    ensures { IsTrue result ↔ IsName word.now }
{
    if word.is_empty() || 16 < word.len() {
        return false;
    }
    word[0].is_ascii_lowercase() && word.iter().all(|b| is_name_byte(*b))
}
