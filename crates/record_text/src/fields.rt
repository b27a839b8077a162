//! Parts of a word, and the words that have a label in front.

ghost use Rattle.std.specs.Prelude.{◌≡◌, ◌≢◌, ◌↔◌, ℕ, List, [], ◌∷◌, ◌++◌, IsTrue, MatchOption};
ghost use Rattle.record_text.specs.Lines.{field};

use text_words::Pieces;

/// Whether a word is this text.
pub(crate) fn is_text(word: &[u8], text: &[u8]) -> bool
    ensures { IsTrue result ↔ (word.now ≡ text.now) }
{
    word == text
}

/// What stands behind a label; None where the word does not begin with it.
pub(crate) fn behind_label<'a>(word: &'a [u8], label: &[u8]) -> Option<&'a [u8]>
    ensures { MatchOption result ((text : List ℕ) → word.now ≢ label.now ++ text) (λ text. word.now ≡ label.now ++ text.now) }
{
    word.strip_prefix(label)
}

/// What stands before a closing bracket; None where the word does not end with it.
pub(crate) fn before_bracket(word: &[u8]) -> Option<&[u8]>
    ensures { MatchOption result ((text : List ℕ) → word.now ≢ text ++ 41 ∷ []) (λ text. word.now ≡ text.now ++ 41 ∷ []) }
{
    match word.split_last() {
        Some((last, text)) => { if *last == b')' { Some(text) } else { None } }
        None => None,
    }
}

/// Takes the first word, and gives what stands in it behind a label.
pub(crate) fn next_field<'a>(words: &mut Pieces<'a>, label: &[u8]) -> Option<&'a [u8]>
    ensures { MatchOption result
        ((text : List ℕ) (others : List (List ℕ)) → words.old ≢ field label.now text ∷ others)
        (λ text. words.old ≡ field label.now text.now ∷ words.new) }
{
    let Some(word) = words.next() else {
        return None;
    };
    behind_label(word, label)
}
