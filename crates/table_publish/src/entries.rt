//! What a window's list holds.
use path_selection::{Change, Table};
use std::marker::Model;
use wire_base::List;

/// What a window opens with: its first table, and the version of this table.
#[derive(Drop)]
pub struct Opened {
    pub table: Table,
    pub version: u64,
}

/// An entry of a window's list: the opening, which is the first one; the changes of a publication; or the mark, behind
/// which none comes.
#[derive(Drop)]
pub enum Entry {
    Open(Opened),
    Changes(List<Change>),
    Mark,
}

/// Names a window in clauses, by its book. No value of it is made.
pub struct Window;

impl Model for Window {
    ghost use Rattle.logbook.specs.Pages.{Book, book_coded};
    ghost use Rattle.table_publish.specs.Windows.{no_book};

    ghost Value = { Book };

    ghost coded = { book_coded };

    ghost view = { λ _. no_book };
}
