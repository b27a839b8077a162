//! The statements of a setup: the words of each, read and printed.
//!
//! ```text
//!  peer 1 65001                                              a statement: keyword, and what it tells
//!  instance fw 0000fde800000001 41 aware firewall tcp 23 23  an instance, and behind its mode a function
//!  rule * 10.0.0.0/8 * tcp 80-443 path 42 255 63 md2         fields that are asked for, and what a frame gets
//! ```
//!
//! Clauses see a line as the list of its words (`words_of`), and a `Statement` by its variants. `Spells words s`
//! says that the words of a line spell the statement.
//!
//! What the layer above uses:
//!
//! - `Keyword::of` gives the statement that a first word begins, or None where it begins none.
//! - `read_statement` reads the words behind it; None exactly where they tell no statement (`Tells`).
//! - `print_local` and its like append the one printed line of a statement (`ended_line`).
//!
//! It does no IO, and only the printers take memory. Whether a statement may stand where it stands, as a name that is
//! declared above, is no matter of this crate.
//!
//! ```text
//! let mut words = Pieces::of(line, b' ');
//! let keyword = Keyword::of(words.next()?)?;
//! let statement = read_statement(keyword, &mut words)?;
//! ```
#![tactic(auto)]

mod crossing;
mod function_text;
mod keywords;
mod laws;
mod printing;
mod reading;
mod rule_text;
mod statements;

pub use crossing::types_cross_threads;
pub use keywords::Keyword;
pub use laws::{a_line_spells_one_statement, a_printed_line_is_read_again};
pub use printing::{
    print_forwarder, print_ingress, print_instance, print_local, print_peer, print_rule,
    print_target,
};
pub use reading::read_statement;
pub use statements::{Bound, Statement};
