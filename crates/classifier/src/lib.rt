//! The rules by which a frame gets a path (RFC 7665, section 4.7).
//!
//! Clauses see a `RuleList` as the list of its rules, the first first:
//!
//! ```text
//!  frame -- its fields --> [ rule 0 ][ rule 1 ][ rule 2 ] .. --> Bypass
//!             |                         |
//!             | Ethernet type 894F      | the first that matches
//!             v                         v
//!          NshIngress              Path, Bypass or Refuse
//! ```
//!
//! What the layer above uses:
//!
//! - `RuleList::push` appends a rule, or changes nothing.
//! - `RuleList::rule` gives a rule by its place, counted from 0.
//! - `RuleList::classify` is the verdict on a frame (`Start`). It reads the frame's fields once and takes no
//!   memory.
//! - A frame has one verdict (`a_frame_has_one_verdict`), and the first bits of addresses are none to all of
//!   them (`networks_reach_from_all_addresses_to_one`).
//!
//! A list keeps `AreRules`: at most 256 rules, each with its parts in their ranges. It does no IO.
//!
//! ```text
//! let mut rules = RuleList::new(alloc);
//! rules.push(rule)?;
//! let verdict = rules.classify(&frame);
//! ```
#![tactic(auto)]

mod crossing;
mod laws;
mod matching;
mod prefixes;
mod rule_lists;
mod rules;
mod verdicts;

pub use crossing::types_cross_threads;
pub use laws::{a_frame_has_one_verdict, networks_reach_from_all_addresses_to_one};
pub use rule_lists::RuleList;
pub use rules::{Action, Prefix, Rule};
pub use verdicts::Verdict;
