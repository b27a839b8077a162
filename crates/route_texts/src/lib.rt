//! Routes texts: the routes that a text spells, or its first refused line, and the text of routes.
//!
//! ```text
//!  sfir 0000fde800000001 41 10.0.0.2 -
//!  sfpr 0000fde80000002a 42 - 255=41:0000fde800000001;43: 254=42:0000000000000000
//!       RD               SPI targets  SI=type:RDs;type:RDs
//! ```
//!
//! What the layer above uses:
//!
//! - `parse_routes` answers the routes that a text spells (`IsRoutes`), or its first line that is not in the grammar (`IsRefused`).
//! - `print_routes` writes the text of routes (`routes_text`); where some text spells the routes, it is that text.
//! - A text has one reading: at most one (`a_text_has_one_reading`), which is what parsing answers (`parsing_is_exact`), and at least one
//!   (`every_text_has_a_reading`). It is what is printed of its routes (`a_text_is_printed_again`).
//!
//! A text has at most 1,024 lines, each ended by byte 0A, and no two with one NLRI; the UPDATE of each has at most 4,096 bytes, where the
//! attributes before kind 14 count as 14. It does no IO, and gives no meaning to a route.
//!
//! ```text
//! let routes = parse_routes(alloc, text)?;
//! for route in routes.as_slice() {
//!     announce(route);
//! }
//! let again = print_routes(alloc, &routes)?;
//! ```
#![tactic(auto)]

mod decisions;
mod faults;
mod hop_text;
mod laws;
mod line_text;
mod parsing;
mod printing;
mod sizes;
mod target_text;

pub use faults::RoutesFault;
pub use laws::{
    a_text_has_one_reading, a_text_is_printed_again, every_text_has_a_reading, parsing_is_exact,
};
pub use parsing::parse_routes;
pub use printing::print_routes;
