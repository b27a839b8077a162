use sfc_desk::Port;

/// The port of this word.
pub(crate) fn port_named(word: &str) -> Option<Port> {
    match word {
        "capture" => Some(Port::Capture),
        "source" => Some(Port::Source),
        "egress" => Some(Port::Egress),
        "lines" => Some(Port::Lines),
        _ => None,
    }
}
