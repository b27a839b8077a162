//! The words of `generate`.

ghost use Rattle.std.specs.Prelude.{MatchOption};
ghost use Rattle.generate_command.specs.GenerateCommand.{Generate, IsGenerate};
ghost use Rattle.generate_command.specs.GenerateSteps.{generate_of};

use commands::Words;
use text_words::read_number;

/// What the words of `generate` say: the seed, and the number of frames.
#[derive(Clone, Copy, Debug)]
pub(crate) struct GenerateWords {
    pub(crate) seed: u64,
    pub(crate) count: u32,
}

/// Reads `generate SEED FRAMES`.
pub(crate) fn generate_words(words: &Words) -> Option<GenerateWords>
    ensures { MatchOption result ((said : Generate) → IsGenerate words.now said → ⊥) (λ said. IsGenerate words.now (generate_of said)) }
{
    if words.len() != 3 {
        return None;
    }
    if words.word(0) != "generate" {
        return None;
    }
    let Some(seed) = read_number(words.word(1).as_bytes(), 0, u64::MAX) else {
        return None;
    };
    let Some(count) = read_number(words.word(2).as_bytes(), 1, 65_536) else {
        return None;
    };
    Some(GenerateWords {
        seed,
        count: count as u32,
    })
}
