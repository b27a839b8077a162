ghost use Rattle.std.specs.Prelude.{◌≡◌, MatchOption};
ghost use Rattle.walk_command.specs.WalkCommand.{Walk, IsWalk};
ghost use Rattle.walk_command.specs.WalkSteps.{walk_of};

use commands::Words;
use static_walks::StaticPath;
use text_words::read_number;
use wire_base::Spi;

/// What the words of `walk` say: the path, and the names of the two files.
#[derive(Clone, Copy)]
pub(crate) struct WalkWords<'a> {
    pub(crate) path: StaticPath,
    pub(crate) capture: &'a str,
    pub(crate) egress: &'a str,
}

/// Reads `walk SPI COUNT CAPTURE EGRESS`.
pub(crate) fn walk_words(words: &Words) -> Option<WalkWords<'_>>
    ensures { MatchOption result ((walk : Walk) → IsWalk words.now walk → ⊥) (λ said. IsWalk words.now (walk_of said)) }
{
    if words.len() != 5 {
        return None;
    }
    if words.word(0) != "walk" {
        return None;
    }
    let Some(spi) = read_number(words.word(1).as_bytes(), 0, 0xFF_FFFF) else {
        return None;
    };
    let Some(count) = read_number(words.word(2).as_bytes(), 1, 255) else {
        return None;
    };
    let (capture, egress) = (words.word(3), words.word(4));
    if capture.is_empty() {
        return None;
    }
    if egress.is_empty() {
        return None;
    }
    if egress == capture {
        return None;
    }
    Some(WalkWords {
        path: StaticPath {
            spi: Spi::of(spi as u32).unwrap(),
            count: count as u8,
        },
        capture,
        egress,
    })
}
