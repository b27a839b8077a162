ghost use Rattle.std.specs.Prelude.{◌≡◌, ◌<◌, [], ◌∷◌, ◌++◌, length, slice_index_or, OnOk, OnErr};

use std::alloc::Global;
use std::marker::Model;
use wire_base::{Bytes, List, OutOfMemory};

/// The words of a command line, without the program's name.
#[derive(Debug, Drop)]
pub struct Words {
    alloc: Global,
    held: List<Bytes>,
}

impl Model for Words {
    ghost use Rattle.std.specs.Prelude.{List as Sequence, ℕ, All, IsUtf8};

    ghost Value = { Sequence (Sequence ℕ) };

    ghost view = { λ w. w.held };

    ghost invariant = { λ w. All IsUtf8 w.held };
}

impl Words {
    /// No word. It takes no memory.
    pub fn new(alloc: Global) -> Words
        ensures { result ≡ [] }
    {
        Words {
            alloc,
            held: List::new(alloc),
        }
    }

    /// Appends a word.
    pub fn push(&mut self, word: &str) -> Result<(), OutOfMemory>
        ensures ok { OnOk result (self.new ≡ self.old ++ word.now ∷ []) }
        ensures err { OnErr result (self.new ≡ self.old) }
    {
        let mut own = Bytes::new(self.alloc);
        own.push_all(word.as_bytes())?;
        self.held.push(own)?;
        Ok(())
    }

    /// How many words there are.
    pub fn len(&self) -> usize
        ensures { result ≡ length self.now }
    {
        self.held.as_slice().len()
    }

    /// The word at a place, counted from 0.
    pub fn word(&self, i: usize) -> &str
        requires { i < length self.now }
        ensures { result.now ≡ slice_index_or self.now i [] }
    {
        let words = self.held.as_slice();
        str::from_utf8(words[i].as_slice()).unwrap()
    }
}
