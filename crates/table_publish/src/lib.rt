//! A table of service paths that one thread replaces while others look paths up.
//!
//! A window is one publisher and the seats that look up. Clauses see what was published in it as an opening table, its
//! version, and the lists of changes behind it, each of which makes one more version:
//!
//! ```text
//!  opening, version 4    [Put 42]    [Cut 43, Put 44]    ..
//!                        version 5   version 6
//! ```
//!
//! What the layer above uses:
//!
//! - `Window::begin` opens a window on a table, with up to 16 seats.
//! - `Publisher::publish` makes one version more, whole or not at all, and answers a `Told`.
//! - `Seat::learn` takes a `Told`: each later lookup answers from its version or a newer one.
//! - `Seat` is a `Tables`. A lookup answers from the last of the lists that it has then seen, which begin with those
//!   that the seat saw or learned of before. It takes no memory and no lock, and waits for nobody.
//! - `close` gives the table after all published lists. What a seat saw is a front of them.
//! - `a_version_is_the_table_after_its_lists` says which table a version names.
//! - `changes_between` gives a list of changes that makes one table of another, and names no path that stays as it is;
//!   `copy_table` gives the same table once more.
//!
//! Two copies of the table stand behind a window, by the kit's `left_right`: seats read one while the publisher changes
//! the other. That all seats and lists are of one window is kept in a book, which exists in proofs alone. Nothing here
//! says that a lookup sees a version that its seat was not told of, or that a call that may wait returns.
//!
//! ```text
//! let (mut publisher, mut seats) = Window::begin(&rt, alloc, &table, 4, 2)?;
//! let told = publisher.publish(&rt, changes)?;
//! seat.learn(told);
//! seat.lookup(spi, 255)                     // Some(Found { version: 5, .. })
//! close(&rt, publisher, seats)?;            // (table, 5)
//! ```
#![tactic(auto)]

mod books;
mod copies;
mod crossing;
mod differences;
mod entries;
mod laws;
mod publishers;
mod rules;
mod seats;
mod stores;
mod tolds;
mod windows;

pub use copies::copy_table;
pub use crossing::types_cross_threads;
pub use differences::changes_between;
pub use entries::Window;
pub use laws::a_version_is_the_table_after_its_lists;
pub use publishers::Publisher;
pub use seats::Seat;
pub use tolds::Told;
pub use windows::close;
