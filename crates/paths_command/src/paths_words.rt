//! The words of `paths`.

ghost use Rattle.std.specs.Prelude.{◌≡◌, MatchOption};
ghost use Rattle.paths_command.specs.PathsCommand.{Paths, IsPaths};
ghost use Rattle.paths_command.specs.PathsSteps.{paths_of};

use commands::Words;

/// What the words of `paths` say: the names of the two files.
#[derive(Clone, Copy)]
pub(crate) struct PathsWords<'a> {
    pub(crate) setup: &'a str,
    pub(crate) control: &'a str,
}

/// Reads `paths SETUP CONTROL`.
pub(crate) fn paths_words(words: &Words) -> Option<PathsWords<'_>>
    ensures { MatchOption result ((paths : Paths) → IsPaths words.now paths → ⊥) (λ said. IsPaths words.now (paths_of said)) }
{
    if words.len() != 3 {
        return None;
    }
    if words.word(0) != "paths" {
        return None;
    }
    let (setup, control) = (words.word(1), words.word(2));
    if setup.is_empty() {
        return None;
    }
    if control.is_empty() {
        return None;
    }
    Some(PathsWords { setup, control })
}
