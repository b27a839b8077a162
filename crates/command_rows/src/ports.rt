//! Ports by their words.

use sfc_desk::Port;

/// The port of this word.
pub(crate) fn port_named(word: &str) -> Option<Port> {
    match word {
        "setup" => Some(Port::Setup),
        "capture" => Some(Port::Capture),
        "control" => Some(Port::Control),
        "records" => Some(Port::Records),
        "routes" => Some(Port::Routes),
        "source" => Some(Port::Source),
        "egress" => Some(Port::Egress),
        "lines" => Some(Port::Lines),
        "replies" => Some(Port::Replies),
        "trace" => Some(Port::Trace),
        "made" => Some(Port::Made),
        _ => None,
    }
}

/// The outputs but Report, by their words.
pub(crate) const OUTPUTS: [(&str, Port); 5] = [
    ("egress", Port::Egress),
    ("lines", Port::Lines),
    ("replies", Port::Replies),
    ("trace", Port::Trace),
    ("made", Port::Made),
];
