//! A text cut at a mark, as a line at its spaces.

ghost use Rattle.std.specs.Prelude.{◌≡◌, ◌≤◌, ◌↔◌, [], ◌∷◌, IsTrue, MatchOption};
ghost use Rattle.std.specs.Fmt.{decimal};
ghost use Rattle.text_words.specs.Pieces.{pieces_of, pieces_left};
ghost use Rattle.text_words.specs.Reading.{ReadsFirst};
ghost use Rattle.text_words.specs.Numbers.{IsWithin};
ghost use Rattle.text_words.specs.Names.{IsName};
ghost use Rattle.text_words.specs.Hexadecimal.{IsOctets, hexadecimal};
ghost use Rattle.text_words.specs.Addresses.{IsAddress, address_text};

use crate::addresses::read_address;
use crate::hexadecimals::read_octets;
use crate::name_text::Name;
use crate::number_text::read_number;
use crate::places::place_of;
use std::marker::Model;
use wire_base::{Fixed, NextHop};

/// The pieces of a text that were not taken yet, the first first.
///
/// A text is cut at each of its marks, so two marks beside each other have an empty piece between them,
/// and a text without marks is one piece.
#[derive(Debug, Drop)]
pub struct Pieces<'a> {
    rest: Option<&'a [u8]>,
    mark: u8,
}

impl<'a> Model for Pieces<'a> {
    ghost use Rattle.std.specs.Prelude.{ℕ, List};
    ghost use Rattle.text_words.specs.Pieces.{pieces_left};

    ghost Value = { List (List ℕ) };

    ghost view = { λ p. pieces_left p.mark p.rest };
}

impl<'a> Pieces<'a> {
    /// All pieces of a text.
    pub fn of(text: &'a [u8], mark: u8) -> Pieces<'a>
        ensures { result ≡ pieces_of mark text.now }
    {
        Pieces {
            rest: Some(text),
            mark,
        }
    }

    /// Takes the first piece; None exactly where none is left.
    pub fn next(&mut self) -> Option<&'a [u8]>
        ensures { MatchOption result ((self.old ≡ []) × (self.new ≡ [])) (λ piece. self.old ≡ piece.now ∷ self.new) }
    {
        let Some(text) = self.rest else {
            return None;
        };
        let (piece, rest) = split_piece(text, self.mark);
        self.rest = rest;
        Some(piece)
    }

    /// Whether no piece is left.
    pub fn is_done(&self) -> bool
        ensures { IsTrue result ↔ (self.now ≡ []) }
    {
        self.rest.is_none()
    }

    /// Takes the first piece as a decimal number from `least` to `most`. After None no more is said of
    /// what is left, here and in the calls below.
    pub fn next_number(&mut self, least: u64, most: u64) -> Option<u64>
        ensures { ReadsFirst (IsWithin least most) decimal self.old result self.new }
    {
        let Some(word) = self.next() else {
            return None;
        };
        read_number(word, least, most)
    }

    /// Takes the first piece as a name.
    pub fn next_name(&mut self) -> Option<Name>
        ensures { ReadsFirst IsName (λ n. n) self.old result self.new }
    {
        let Some(word) = self.next() else {
            return None;
        };
        Name::of(word)
    }

    /// Takes the first piece as the digits of exactly N bytes.
    pub fn next_octets<const N: usize>(&mut self) -> Option<Fixed<N>>
        ensures { ReadsFirst (IsOctets N) hexadecimal self.old result self.new }
    {
        let Some(word) = self.next() else {
            return None;
        };
        read_octets(word)
    }

    /// Takes the first piece as an address.
    pub fn next_address(&mut self) -> Option<NextHop>
        ensures { ReadsFirst IsAddress address_text self.old result self.new }
    {
        let Some(word) = self.next() else {
            return None;
        };
        read_address(word)
    }
}

/// The first piece of a text, and what stands behind its mark, if it has one.
fn split_piece(text: &[u8], mark: u8) -> (&[u8], Option<&[u8]>)
    ensures { pieces_of mark text.now ≡ result.0.now ∷ pieces_left mark result.1 }
{
    match place_of(text, mark) {
        Some(end) => (&text[..end], Some(&text[end + 1..])),
        None => (text, None),
    }
}
