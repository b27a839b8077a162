//! The words of a run: its six files.

ghost use Rattle.std.specs.Prelude.{◌≡◌, ◌≢◌, ◌≤◌, true, false, [], length, MatchBool, MatchOption};
ghost use Rattle.file_runs.specs.FileRuns.{AreRunFiles, IsNoInput};
ghost use Rattle.file_runs.specs.RunSteps.{files_of, named_by};

use commands::Words;

/// The names of the files of a run.
#[derive(Clone, Copy)]
pub struct RunWords<'a> {
    pub setup: &'a str,
    pub capture: &'a str,
    pub control: &'a str,
    pub egress: &'a str,
    pub lines: &'a str,
    pub replies: &'a str,
}

/// Whether no name is empty.
fn are_named(said: &RunWords<'_>) -> bool
    ensures yes { result ≡ true → (said.now.setup.now ≢ []) × (said.now.capture.now ≢ []) × (said.now.control.now ≢ []) × (said.now.egress.now ≢ []) × (said.now.lines.now ≢ []) × (said.now.replies.now ≢ []) }
    ensures no { result ≡ false → AreRunFiles (files_of said.now) → ⊥ }
{
    if said.setup.is_empty() {
        return false;
    }
    if said.capture.is_empty() {
        return false;
    }
    if said.control.is_empty() {
        return false;
    }
    if said.egress.is_empty() {
        return false;
    }
    if said.lines.is_empty() {
        return false;
    }
    !said.replies.is_empty()
}

/// Whether a name is that of no input.
fn is_no_input(said: &RunWords<'_>, name: &str) -> bool
    ensures { MatchBool result (IsNoInput (files_of said.now) name.now) (IsNoInput (files_of said.now) name.now → ⊥) }
{
    if name == said.setup {
        return false;
    }
    if name == said.capture {
        return false;
    }
    name != said.control
}

/// Whether the outputs differ from each other.
fn outputs_differ(said: &RunWords<'_>) -> bool
    ensures yes { result ≡ true → (said.now.lines.now ≢ said.now.egress.now) × (said.now.replies.now ≢ said.now.egress.now) × (said.now.replies.now ≢ said.now.lines.now) }
    ensures no { result ≡ false → AreRunFiles (files_of said.now) → ⊥ }
{
    if said.lines == said.egress {
        return false;
    }
    if said.replies == said.egress {
        return false;
    }
    said.replies != said.lines
}

/// Whether these may be the files of a run.
fn are_run_files(said: &RunWords<'_>) -> bool
    ensures { MatchBool result (AreRunFiles (files_of said.now)) (AreRunFiles (files_of said.now) → ⊥) }
{
    if !are_named(said) {
        return false;
    }
    if !is_no_input(said, said.egress) {
        return false;
    }
    if !is_no_input(said, said.lines) {
        return false;
    }
    if !is_no_input(said, said.replies) {
        return false;
    }
    outputs_differ(said)
}

/// Reads the six names behind the first word.
pub fn read_run_words(words: &Words) -> Option<RunWords<'_>>
    requires many { 7 ≤ length words.now }
    ensures { MatchOption result (AreRunFiles (named_by words.now) → ⊥) (λ said. AreRunFiles (files_of said) × (files_of said ≡ named_by words.now)) }
{
    let said = RunWords {
        setup: words.word(1),
        capture: words.word(2),
        control: words.word(3),
        egress: words.word(4),
        lines: words.word(5),
        replies: words.word(6),
    };
    if are_run_files(&said) {
        return Some(said);
    }
    None
}
