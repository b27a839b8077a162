//! The table of service paths that the routes of all peers give (after RFC 9015, sections 3.2 and 7).
//!
//! ```text
//!  SFIRs  type 44: RD ..4 at f0, RD ..5 at f0, RD ..6 at f0        usable, in order of type, then RD
//!  SFPR   SPI 42:  255=44:any                                      accepted, the lowest RD of its SPI
//!                  297 mod 3 = 0, so the first candidate
//!  path   42       255 at f0 by the instance of RD ..4
//! ```
//!
//! What the layer above uses:
//!
//! - `select_all` gives the table of a list of routes (`IsSelection`). It is judged first what is usable and what is accepted; of
//!   one NLRI the lowest peer's route then counts, and of several paths of one SPI the one with the lowest RD.
//! - A selection names forwarders and instances of the roster alone. Each list of routes has a selection
//!   (`every_list_has_a_selection`) and one alone, and so have lists of the same routes, and changes with the same last words
//!   (`laws`). Its paths are those of the accepted path routes with the lowest RDs (`the_lowest_rd_is_taken`).
//!
//! A hop's candidates are the usable instance routes that some SFT of it names, each once. A path whose hops have no candidate
//! is still a path. Nothing here keeps a table up to date, looks a path up or does IO.
//!
//! ```text
//! let table = select_all(alloc, &roster, &routes)?;
//! table.answer(spi, 255)                  // Answer::At(255, ForwarderId(0), InstanceId(0))
//! ```
#![tactic(auto)]

mod accepted_routes;
mod candidates;
mod choices;
mod laws;
mod naming;
mod path_routes;
mod selected_paths;
mod selections;
mod type_ranges;
mod usable_routes;

pub use laws::{
    a_list_has_one_selection, a_selection_names_the_roster, every_list_has_a_selection,
    last_words_have_one_selection, same_routes_have_one_selection, the_lowest_rd_is_taken,
};
pub use selections::select_all;
