//! The words of `run`.

ghost use Rattle.std.specs.Prelude.{MatchOption};
ghost use Rattle.run_command.specs.RunCommand.{IsThreadedRun, ThreadedRun};
ghost use Rattle.run_command.specs.ThreadedSteps.{threaded_of};

use commands::Words;
use file_runs::{RunWords, read_run_words};
use text_words::read_number;

/// What the words of `run` say: the six files, and the number of workers.
#[derive(Clone, Copy)]
pub(crate) struct ThreadedWords<'a> {
    pub(crate) files: RunWords<'a>,
    pub(crate) workers: u32,
}

/// Reads `run SETUP CAPTURE CONTROL EGRESS LINES REPLIES WORKERS`.
pub(crate) fn threaded_words(words: &Words) -> Option<ThreadedWords<'_>>
    ensures { MatchOption result ((said : ThreadedRun) → IsThreadedRun words.now said → ⊥) (λ said. IsThreadedRun words.now (threaded_of said)) }
{
    if words.len() != 8 {
        return None;
    }
    if words.word(0) != "run" {
        return None;
    }
    let Some(workers) = read_number(words.word(7).as_bytes(), 1, 16) else {
        return None;
    };
    let Some(files) = read_run_words(words) else {
        return None;
    };
    Some(ThreadedWords {
        files,
        workers: workers as u32,
    })
}
