use bgp_session::Local;
use classifier::Rule;
use service_functions::Function;
use sfc_routes::{ForwarderEntry, InstanceEntry};
use text_words::Name;
use wire_base::Fixed;

/// What serves at an instance.
#[derive(Debug, Drop)]
pub struct Bound {
    /// Whether the instance is reached through a proxy, so that its function never sees the header
    /// (RFC 7665, section 4.6).
    pub proxy: bool,
    pub function: Function,
}

/// A statement of a setup.
#[derive(Debug, Drop)]
pub enum Statement {
    /// The local side of all sessions.
    Local(Local),
    /// A route target (RFC 4360, section 4) of which routes are taken.
    Target(Fixed<8>),
    /// A peer's number, 1 to 65,535, and its AS, 1 to 4,294,967,295.
    Peer((u16, u32)),
    Forwarder(ForwarderEntry),
    /// The forwarder where frames come in.
    Ingress(Name),
    Instance(InstanceEntry, Bound),
    Rule(Rule),
}
