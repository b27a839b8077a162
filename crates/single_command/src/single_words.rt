//! The words of `single`.

ghost use Rattle.std.specs.Prelude.{MatchOption};
ghost use Rattle.file_runs.specs.FileRuns.{RunFiles};
ghost use Rattle.file_runs.specs.RunSteps.{files_of};
ghost use Rattle.single_command.specs.SingleCommand.{IsSingleWords};

use commands::Words;
use file_runs::{RunWords, read_run_words};

/// Reads `single SETUP CAPTURE CONTROL EGRESS LINES REPLIES`.
pub(crate) fn single_words(words: &Words) -> Option<RunWords<'_>>
    ensures { MatchOption result ((files : RunFiles) → IsSingleWords words.now files → ⊥) (λ said. IsSingleWords words.now (files_of said)) }
{
    if words.len() != 7 {
        return None;
    }
    if words.word(0) != "single" {
        return None;
    }
    read_run_words(words)
}
