ghost use Rattle.std.specs.Prelude.{◌≡◌};
ghost use Rattle.route_texts.specs.declared.faults.RoutesFault.TheVariants.{OutOfMemory as NoMemory};

use thiserror::Error;
use wire_base::OutOfMemory;

/// Why a text is no routes text.
#[derive(Clone, Copy, Debug, PartialEq, Eq, Error)]
pub enum RoutesFault {
    /// The first line that is not in the grammar, counted from 1.
    #[error("a line of the routes is refused")]
    Line(u64),
    #[error("no memory")]
    OutOfMemory,
}

impl From<OutOfMemory> for RoutesFault {
    ghost from_gives = { λ _ e. e ≡ NoMemory };

    fn from(_fault: OutOfMemory) -> RoutesFault {
        RoutesFault::OutOfMemory
    }
}
