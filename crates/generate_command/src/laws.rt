//! What is counted, whatever counts it.

ghost use Rattle.std.specs.Prelude.{◌≡◌, ◌≤◌, ℕ};
ghost use Rattle.generate_command.specs.declared.summaries.Summary.{Summary};
ghost use Rattle.generate_command.specs.Summaries.{Counted};

use control_histories::segments_have_one_log;
use worker_run::there_is_one_single_run;

/// A seed and a number of frames have at most one line of counts.
pub fn one_run_is_counted()
    ensures { (seed count : ℕ) (here there : Summary) → count ≤ 65536 → Counted seed count here → Counted seed count there → here ≡ there }
{
    segments_have_one_log();
    there_is_one_single_run();
}
