//! The lines of a text.

ghost use Rattle.std.specs.Prelude.{◌≡◌, ◌<◌, length, [], ◌∷◌, MatchOption};
ghost use Rattle.text_words.specs.Lines.{lines_of};

use crate::places::place_of;
use std::marker::Model;

/// The lines of a text that were not taken yet, the first first.
///
/// A line ends at byte 0A, and the last may lack it. The byte is no part of the line.
#[derive(Debug, Drop)]
pub struct TextLines<'a> {
    rest: &'a [u8],
}

impl<'a> Model for TextLines<'a> {
    ghost use Rattle.std.specs.Prelude.{ℕ, List};
    ghost use Rattle.text_words.specs.Lines.{lines_of};

    ghost Value = { List (List ℕ) };

    ghost view = { λ l. lines_of l.rest.now };
}

impl<'a> TextLines<'a> {
    /// All lines of a text.
    pub fn of(text: &'a [u8]) -> TextLines<'a>
        ensures { result ≡ lines_of text.now }
    {
        TextLines { rest: text }
    }

    /// Takes the first line; None exactly where none is left.
    pub fn next(&mut self) -> Option<&'a [u8]>
        ensures { MatchOption result ((self.old ≡ []) × (self.new ≡ [])) (λ line. self.old ≡ line.now ∷ self.new) }
    {
        if self.rest.is_empty() {
            return None;
        }
        let (line, rest) = split_line(self.rest);
        self.rest = rest;
        Some(line)
    }
}

/// The first line of a text, and the text behind it.
fn split_line(text: &[u8]) -> (&[u8], &[u8])
    requires { 0 < length text.now }
    ensures { lines_of text.now ≡ result.0.now ∷ lines_of result.1.now }
{
    match place_of(text, b'\n') {
        Some(end) => (&text[..end], &text[end + 1..]),
        None => (text, &[]),
    }
}
