//! What a window publishes: a table and its version.

ghost use Rattle.std.specs.Prelude.{◌≡◌};

use crate::books::WindowSeen;
use crate::copies::copy_changed;
use left_right::Absorb;
use path_selection::{Change, Table};
use std::alloc::{AllocError, Global};
use wire_base::List;

/// A publication has its changes, and the list which ends with them.
#[derive(Drop)]
pub enum Operation {
    Open,
    Enter(List<Change>, WindowSeen),
}

/// What the two copies have in common. No value of it is made.
pub struct Content {
    pub table: Table,
    pub version: u64,
    pub seen: WindowSeen,
}

/// One of the two copies.
#[derive(Drop)]
pub struct Store {
    alloc: Global,
    pub table: Table,
    pub version: u64,
    pub seen: WindowSeen,
}

impl Store {
    pub fn new(alloc: Global, table: Table, version: u64, seen: WindowSeen) -> Store
        ensures { (result.table ≡ table) × (result.version ≡ version) × (result.seen ≡ seen) }
    {
        Store {
            alloc,
            table,
            version,
            seen,
        }
    }
}

impl Absorb<Operation> for Store {
    ghost use Rattle.table_publish.specs.Contents.{absorbed, content_of};

    type State = Content;

    ghost state = { content_of };

    ghost applied = { absorbed };

    /// All memory is taken first: without it the copy is unchanged.
    fn absorb_first(&mut self, operation: &Operation, _other: &Store) -> Result<(), AllocError> {
        let Operation::Enter(changes, seen) = operation else {
            return Ok(());
        };
        if self.version == u64::MAX {
            return Err(AllocError);
        }
        let Ok(table) = copy_changed(self.alloc, &self.table, changes.as_slice()) else {
            return Err(AllocError);
        };
        self.table = table;
        self.version += 1;
        self.seen = seen.again();
        Ok(())
    }
}
