//! What became of a frame, and the text of it; and the text of a table.
//!
//! ```text
//!  0 worker=0 path=42 versions=4,4,4 visits=vlan,fw end=drop:denied(fw)     a record line
//!  version 4                                                               a table: its version,
//!  path 42 255=vlan@f0 254=none                                            and a line for each path
//! ```
//!
//! Clauses see a line as the bytes that `line_of` gives for a number and a record, and a text as the list of its entries:
//! `IsRecords roster text entries`, and `IsRefused roster text n` where line n is the first that is not in the grammar.
//! Instances and forwarders are named as in the roster.
//!
//! What the layer above uses:
//!
//! - `append_record` puts one line at the end of a buffer, and `print_record` makes a text of it.
//! - `parse_record` reads one line, None exactly where it spells no entry; `parse_records` reads a text, or tells the first
//!   line that is refused (`Parses`).
//! - `append_table` and `print_table` write a table (`table_text`).
//! - `drop_reasons` is the table of the words for which a frame is dropped, by which both read and print them.
//! - A text has one reading (`every_text_has_a_reading`, `a_text_has_one_reading`), so reading a printed line gives its entry again
//!   (`reading_is_exact`); a table's text is that of one table (`a_table_text_has_one_table`).
//!
//! docs/RECORDS.md has the texts for operators. It does no IO, and takes no memory but that of the lists and texts that it
//! hands out. Whether a record is the end of a walk is no matter of this crate.
//!
//! ```text
//! append_record(&mut lines, 0, &record, &roster)?;
//! let entries = parse_records(alloc, lines.as_slice(), &roster)?;
//! ```
#![tactic(auto)]

mod crossing;
mod drop_names;
mod end_text;
mod faults;
mod fields;
mod laws;
mod list_text;
mod printing;
mod reason_words;
mod record_line;
mod record_texts;
mod records;
mod roster_names;
mod table_texts;

pub use crossing::types_cross_threads;
pub use drop_names::drop_reasons;
pub use faults::RecordsFault;
pub use laws::{
    a_printed_record_is_read_again, a_table_text_has_one_table, a_text_has_one_reading,
    an_entry_may_be_printed, every_text_has_a_reading, reading_is_exact,
};
pub use record_line::{append_record, parse_record, print_record};
pub use record_texts::parse_records;
pub use records::{End, Reason, Record};
pub use table_texts::{append_table, print_table};
