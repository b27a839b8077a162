//! Tables of service paths, and what a forwarder looks paths up in (RFC 7665, section 4.3; RFC 8300, section 2.3).
//!
//! Clauses see a `Table` as the list of its paths in order of their identifiers, and a `Path` as its identifier and its
//! hops:
//!
//! ```text
//!  identifier 42   255 at f0 by vlan, 254 at f0 by nat, 253 at f1 by fw
//!  identifier 43   255 at f1 by fw
//! ```
//!
//! What the layer above uses:
//!
//! - `Path::of` makes a path of hops whose service indexes fall strictly.
//! - `Table::apply` puts or cuts one path, and moves no hop of another.
//! - `Table::answer` says which hop serves an identifier and an index, as `IsAnswer` tells it.
//! - `Tables` is what a forwarder looks up in: published tables with rising versions, of which a newer one may come at
//!   any lookup. `Still` is one table, and `Script` a list of them with picks, for tests.
//!
//! Searches are by halves. It does no IO; a lookup takes no memory and waits for nobody.
//!
//! ```text
//! let mut table = Table::empty(alloc);
//! table.apply(Change::Put(path))?;
//! table.answer(spi, 254)                   // Answer::At(254, ForwarderId(0), InstanceId(1))
//! ```
#![tactic(auto)]

mod answers;
mod changes;
mod crossing;
mod hops;
mod laws;
mod lookups;
mod path_tables;
mod paths;
mod scripts;
mod searches;
mod still_tables;

pub use answers::Answer;
pub use changes::Change;
pub use crossing::types_cross_threads;
pub use hops::HopRow;
pub use laws::a_table_has_one_answer;
pub use lookups::{Found, Tables};
pub use path_tables::Table;
pub use paths::Path;
pub use scripts::Script;
pub use still_tables::Still;
