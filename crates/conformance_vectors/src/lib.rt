//! Tables of inputs with the answer that each decoder has to give, for tests of any decoder.
//!
//! A table is a list of named inputs, each with what a decoder of its format answers:
//!
//! ```text
//!  "an MD Type of 15"   0F C6 0F   -->   Nsh(MdType(15))
//! ```
//!
//! What users take:
//!
//! - `nsh_cases` has each refusal of a Network Service Header (RFC 8300), at the first byte that shows it and
//!   with all bytes behind it, at its first and its last possible place, and headers that are accepted.
//! - `bgp_cases` has the same of BGP messages (RFC 4271, sections 4, 6.1 and 6.2).
//! - `update_cases` has each refusal of the content of an UPDATE (RFC 4271, sections 4.3 and 6.3; RFC 4760), at its first
//!   possible place and behind what is accepted, and contents that are accepted. A last possible place ends a content of
//!   4,077 bytes: the program `conformance_rows` makes those.
//! - `sfp_value_cases` and `sfp_head_cases` have the same of the value of an SFP attribute (after RFC 9015, section 3.2); a last
//!   possible place ends a value of 4,069 bytes.
//!
//! The expected answers are written by hand from the formats, and not taken from a decoder. `conformance_rows`
//! runs each table through this project's decoders: whole, through a feed in every cutting into two pieces, and
//! the contents of UPDATEs, which no feed reads, with every number of their last bytes missing; the values of SFP attributes
//! whole.
//!
//! ```text
//! for case in &nsh_cases().cases {
//!     expect(my_decoder(case.input), &case.answer);
//! }
//! ```
#![tactic(auto)]

mod bgp;
mod cases;
mod nsh;
mod sfp;
mod updates;

pub use bgp::bgp_cases;
pub use cases::{Case, Cases, Expected};
pub use nsh::nsh_cases;
pub use sfp::{sfp_head_cases, sfp_value_cases};
pub use updates::update_cases;
