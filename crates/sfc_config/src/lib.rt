//! The setup of a text: who the peers, forwarders and instances are, and which frames take which path.
//!
//! ```text
//!  text --- lines_of ---> lines, one after another:
//!                           taken: what was said so far, and what the line says   (Takes)
//!                           refused: the first reason, in one order               (Refuses)
//!  after the last line: a setup, or a part that is missing
//! ```
//!
//! Clauses see a `Setup` as its `Parts`. `IsSetup text parts` says that the text spells the setup, and
//! `IsRefused text n reason` that line n is the first that is refused, and for which reason.
//!
//! What the layer above uses:
//!
//! - `parse_setup` gives the setup that a text spells, or its first refusal (`Parses`).
//! - `print_setup` gives a text that spells the setup, its statements in one order (`IsPrinted`).
//! - A text has one reading (`every_text_has_a_reading`, `a_text_has_one_reading`), so parsing a printed setup gives it
//!   again (`parsing_is_exact`).
//!
//! A setup keeps `AreParts`. docs/SETUP.md has the text for operators. It does no IO, and a name is found by a search
//! over all names.
//!
//! ```text
//! let setup = parse_setup(alloc, text)?;
//! let ingress = setup.roster.forwarder_name(setup.ingress);
//! let again = print_setup(alloc, &setup)?;
//! ```
#![tactic(auto)]

mod crossing;
mod drafts;
mod faults;
mod laws;
mod parsing;
mod placing;
mod printing;
mod setups;

pub use crossing::types_cross_threads;
pub use faults::{SetupFault, SetupReason};
pub use laws::{a_text_has_one_reading, every_text_has_a_reading, parsing_is_exact};
pub use parsing::parse_setup;
pub use printing::print_setup;
pub use setup_statements::Bound;
pub use setups::Setup;
