use crate::routes::Route;
use bgp_update::Nlri;
use wire_base::List;

/// What one UPDATE of a peer, or the end of its session, makes of its routes: where `all`, every route of the peer is
/// withdrawn, then those of `withdrawn`, then `announced` come, in order.
#[derive(Debug, Drop)]
pub struct RouteChange {
    /// The number of the peer.
    pub peer: u16,
    pub all: bool,
    pub withdrawn: List<Nlri>,
    pub announced: List<Route>,
}
