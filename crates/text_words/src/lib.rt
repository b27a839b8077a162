//! The words of a text: lines, pieces between marks, and readers and printers of what one word spells.
//!
//! Each reader has one clause, `Reads fits spelling word result`: the value that fits and that the word
//! spells, or None exactly where it spells none. Each printer appends the spelling.
//!
//! ```text
//!  "peer 1 65001\n"  -- TextLines -->  "peer 1 65001"  -- Pieces -->  "peer", "1", "65001"
//! ```
//!
//! What the layer above uses:
//!
//! - `TextLines` gives the lines of a text (`lines_of`), `Pieces` a line cut at a mark (`pieces_of`).
//! - `read_number` and `print_number`: decimal without leading zeros, in a range.
//! - `Name`: 1 to 16 characters that begin with a letter (`IsName`).
//! - `read_octets`, `read_four_digits`, `read_octets_or_dash`: hexadecimal digits in lower case, of any number of bytes.
//! - `read_address`: four numbers joined by points (`dotted`), or 32 digits.
//!
//! It does no IO, and only the printers take memory.
//!
//! ```text
//! let mut words = Pieces::of(line, b' ');
//! let number = words.next_number(1, 65_535)?;
//! ```
#![tactic(auto)]

mod addresses;
mod crossing;
mod hexadecimals;
mod line_cursor;
mod name_text;
mod number_text;
mod piece_cursor;
mod places;

pub use addresses::{address_has_bytes, print_address, print_dotted, read_address, read_dotted};
pub use crossing::types_cross_threads;
pub use hexadecimals::{
    octets_are_bytes, print_four_digits, print_octets, print_octets_or_dash, read_four_digits,
    read_octets, read_octets_or_dash,
};
pub use line_cursor::TextLines;
pub use name_text::Name;
pub use number_text::{print_number, read_number};
pub use piece_cursor::Pieces;
