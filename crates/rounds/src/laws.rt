//! What holds of rounds, whatever runs them.

ghost use Rattle.std.specs.Prelude.{◌≡◌, ◌≢◌, ℕ, List, [], take, length};
ghost use Rattle.pcap_io.specs.declared.frames.Captured.{Captured};
ghost use Rattle.control_files.specs.declared.segments.Segment.{Segment};
ghost use Rattle.rounds.specs.declared.ends.RunEnd.{RunEnd as End};
ghost use Rattle.rounds.specs.Rounds.{Round, Rounds, frames_of, segments_of};
ghost use Rattle.rounds.specs.Counted.{RisesFrom, counted, last_from, rounds_below, rounds_before_last, segments_below};
ghost use Rattle.rounds.specs.Places.{highs, places_of, standing_from};

/// Every two inputs have exactly one list of rounds.
#[tactic(auto, using(crate::proofs::RoundLemmas::exists, crate::proofs::RoundLemmas::unique))]
pub fn one_list_of_rounds()
    ensures some { (frames : List Captured) (segments : List Segment) → (rounds : List Round) × Rounds 0 frames segments rounds }
    ensures one { (frames : List Captured) (segments : List Segment) (rounds others : List Round)
        → Rounds 0 frames segments rounds → Rounds 0 frames segments others → rounds ≡ others }
{}

/// Whatever is answered, the rounds that count are the rounds of the frames and of the segments that count.
#[tactic(auto, using(crate::proofs::FrontRounds::rounds_of_counted))]
pub fn rounds_of_what_counts()
    ensures { (whole : ℕ) (end : End) (frames : List Captured) (segments : List Segment) (rounds : List Round) → Rounds 0 frames segments rounds
        → Rounds 0 (frames_of (counted whole end rounds)) (segments_of (counted whole end rounds)) (counted whole end rounds) }
{}

/// After a fault of the capture, the rounds that count are the rounds of its whole frames and of the segments
/// below their number.
#[tactic(auto, using(crate::proofs::BelowLemmas::rounds_of_below))]
pub fn rounds_of_what_counts_after_a_capture_fault()
    ensures { (frames : List Captured) (segments : List Segment) (rounds : List Round) → RisesFrom 0 segments → Rounds 0 frames segments rounds
        → Rounds 0 frames (segments_below (length frames) segments) (rounds_below (length frames) rounds) }
{}

/// After a fault of the control file, the frames of the rounds that count are those below the position of the
/// last good segment.
#[tactic(auto, using(crate::proofs::LastLemmas::frames_below_c))]
pub fn frames_that_count_after_a_control_fault()
    ensures { (frames : List Captured) (segments : List Segment) (rounds : List Round) → RisesFrom 0 segments → segments ≢ [] → Rounds 0 frames segments rounds
        → frames_of (rounds_before_last rounds) ≡ take (last_from 0 segments) frames }
{}

/// The segments before a frame's round and those of its own are exactly those that stand at or before the frame.
#[tactic(auto, using(crate::proofs::HighLemmas::highest_is_standing))]
pub fn a_frame_is_read_behind_the_segments_at_or_before_it()
    ensures { (frames : List Captured) (segments : List Segment) (rounds : List Round) → RisesFrom 0 segments → Rounds 0 frames segments rounds
        → highs (places_of 0 rounds) ≡ standing_from 0 0 frames segments }
{}
