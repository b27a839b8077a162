//! What rows leave for the next ones.

use crate::open_windows::OpenWindow;
use path_selection::{Change, Table};
use std::alloc::Global;
use std::sync::Wait;
use wire_base::List;

/// The changes that wait for a publication, the window that is open, and the table that the last one opened with.
pub(crate) struct Desk {
    pub alloc: Global,
    pub changes: List<Change>,
    pub open: Option<OpenWindow>,
    pub table: Table,
}

impl Desk {
    pub fn new(alloc: Global) -> Desk {
        Desk {
            alloc,
            changes: List::new(alloc),
            open: None,
            table: Table::empty(alloc),
        }
    }

    /// This window is open. One that was open is closed.
    pub fn open<R: Wait>(&mut self, rt: &R, window: OpenWindow) {
        if let Some(last) = self.open.replace(window) {
            last.leave(rt, self.alloc);
        }
    }

    /// A window that is open is closed.
    pub fn leave<R: Wait>(self, rt: &R) {
        let Desk {
            alloc,
            changes: _changes,
            open,
            table: _table,
        } = self;
        if let Some(last) = open {
            last.leave(rt, alloc);
        }
    }
}
