use bgp_session::Local;

/// The two sides of a session.
#[derive(Clone, Copy, Debug)]
pub(crate) struct Side {
    pub(crate) local: Local,
    /// The number of the peer, by which its route changes are known.
    pub(crate) peer: u16,
    /// The AS that the peer's OPEN has to have.
    pub(crate) peer_as: u32,
}
