ghost use Rattle.std.specs.Prelude.{◌≡◌};
ghost use Rattle.sfc_config.specs.Drafts.{nothing};

use bgp_session::Local;
use classifier::RuleList;
use setup_statements::Bound;
use sfc_routes::Roster;
use std::alloc::Global;
use wire_base::{ForwarderId, List};

/// What a text has said so far.
#[derive(Debug, Drop)]
pub(crate) struct Draft {
    pub(crate) local: Option<Local>,
    pub(crate) peers: List<(u16, u32)>,
    pub(crate) roster: Roster,
    pub(crate) ingress: Option<ForwarderId>,
    pub(crate) instances: List<Bound>,
    pub(crate) rules: RuleList,
}

impl Draft {
    /// Nothing was said.
    pub(crate) fn new(alloc: Global) -> Draft
        ensures { result ≡ nothing }
    {
        Draft {
            local: None,
            peers: List::new(alloc),
            roster: Roster::new(alloc),
            ingress: None,
            instances: List::new(alloc),
            rules: RuleList::new(alloc),
        }
    }
}
