use bgp_session::Local;
use classifier::RuleList;
use setup_statements::Bound;
use sfc_routes::Roster;
use std::marker::Model;
use wire_base::{ForwarderId, List};

/// Who the peers, forwarders and instances are, and which frames take which path.
///
/// It keeps `AreParts`: the ranges and counts of the text's statements, that numbers, names, addresses, targets and
/// pairs of RD and type differ, and that what one part says of another is there.
#[derive(Debug, Drop)]
pub struct Setup {
    /// The local side of all sessions.
    pub local: Local,
    /// The peers' numbers, 1 to 65,535, which differ, each with its AS, at least 1.
    pub peers: List<(u16, u32)>,
    pub roster: Roster,
    /// The forwarder where frames come in.
    pub ingress: ForwarderId,
    /// What serves at each instance of the roster, by the instance's number.
    pub instances: List<Bound>,
    pub rules: RuleList,
}

impl Model for Setup {
    ghost use Rattle.sfc_config.specs.Parts.{Parts, AreParts};

    ghost Value = { Parts };

    ghost view = { λ s. record { local = s.local; peers = s.peers; roster = s.roster; ingress = s.ingress; instances = s.instances; rules = s.rules } };

    ghost invariant = { λ s. AreParts (record { local = s.local; peers = s.peers; roster = s.roster; ingress = s.ingress; instances = s.instances; rules = s.rules }) };
}
