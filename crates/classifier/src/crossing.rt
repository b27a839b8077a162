use crate::rule_lists::RuleList;
use crate::rules::Rule;
use crate::verdicts::Verdict;

fn crosses<T: Send + Sync + Drop>() {}

/// Shows that the types of this crate may be handed to and shared with threads, as soon as it compiles.
pub fn types_cross_threads() {
    crosses::<Rule>();
    crosses::<RuleList>();
    crosses::<Verdict>();
}
