//! The summary of a run: what is counted of it, and its line.

ghost use Rattle.std.specs.Prelude.{◌≡◌, ◌+◌, ◌<◌, ◌^◌, ◌++◌, length, OnOk};
ghost use Rattle.worker_run.specs.Batches.{records_in};
ghost use Rattle.worker_run.specs.Outputs.{goes_out};
ghost use Rattle.generate_command.specs.Summaries.{drops, goes, labelled, summary_text};

use record_text::End;
use text_words::print_number;
use wire_base::{Bytes, OutOfMemory};
use worker_run::Batch;

/// How many frames a run has, how many of them went out, how many were dropped, and the number of the last version of the table.
#[derive(Clone, Copy, Debug, PartialEq, Eq)]
pub struct Summary {
    pub frames: u64,
    pub egress: u64,
    pub dropped: u64,
    pub last_version: u64,
}

/// Whether a frame of this end goes out.
fn is_out(end: &End) -> bool
    ensures { result ≡ goes_out end.now }
{
    match end {
        End::Egress | End::Bypass => true,
        End::Drop(_) => false,
    }
}

impl Summary {
    ghost use Rattle.std.specs.Prelude.{cond, not};
    ghost use Rattle.std.specs.List.{filter};

    /// Counts a frame of this end.
    fn count(&mut self, end: &End)
        requires frames { self.old.frames + 1 < 2 ^ 64 }
        requires egress { self.old.egress + 1 < 2 ^ 64 }
        requires dropped { self.old.dropped + 1 < 2 ^ 64 }
        ensures frames { self.new.frames ≡ self.old.frames + 1 }
        ensures egress { self.new.egress ≡ self.old.egress + cond (goes_out end.now) 1 0 }
        ensures dropped { self.new.dropped ≡ self.old.dropped + cond (not (goes_out end.now)) 1 0 }
        ensures version { self.new.last_version ≡ self.old.last_version }
    {
        self.frames += 1;
        if is_out(end) {
            self.egress += 1;
        } else {
            self.dropped += 1;
        }
    }

    /// Counts the frames of a round that was run.
    pub(crate) fn count_round(&mut self, batch: &Batch)
        requires frames { self.old.frames + length batch.now < 2 ^ 64 }
        requires egress { self.old.egress + length batch.now < 2 ^ 64 }
        requires dropped { self.old.dropped + length batch.now < 2 ^ 64 }
        ensures frames { self.new.frames ≡ self.old.frames + length batch.now }
        ensures egress { self.new.egress ≡ self.old.egress + length (filter goes (records_in batch.now)) }
        ensures dropped { self.new.dropped ≡ self.old.dropped + length (filter drops (records_in batch.now)) }
        ensures version { self.new.last_version ≡ self.old.last_version }
    {
        'frames: for i in 0..batch.len() {
            self.count(&batch.end_of(i).end);
        }
    }
}

/// Appends a label and a count.
#[tactic(auto, unfolding(crate::specs::Summaries::labelled))]
fn print_count(out: &mut Bytes, label: &[u8], count: u64) -> Result<(), OutOfMemory>
    ensures { OnOk result (out.new ≡ out.old ++ labelled label.now count) }
{
    out.push_all(label)?;
    print_number(out, count)
}

/// Appends the line of a summary.
pub(crate) fn print_summary(out: &mut Bytes, summary: &Summary) -> Result<(), OutOfMemory>
    ensures { OnOk result (out.new ≡ out.old ++ summary_text summary.now) }
{
    print_count(out, b"frames=", summary.frames)?;
    print_count(out, b" egress=", summary.egress)?;
    print_count(out, b" dropped=", summary.dropped)?;
    print_count(out, b" last-version=", summary.last_version)?;
    out.push_all(b"\n")
}
