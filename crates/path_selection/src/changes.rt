use crate::paths::Path;
use wire_base::Spi;

/// A change of one path of a table.
#[derive(Debug, Drop)]
pub enum Change {
    /// This path stands in place of the one with its identifier, or joins the table.
    Put(Path),
    /// The path with this identifier goes.
    Cut(Spi),
}
