//! When a rule matches a frame.

ghost use Rattle.std.specs.Prelude.{◌≡◌, ◌≤◌, MatchBool};
ghost use Rattle.classifier.specs.Rules.{IsRule, FitsIfAsked, IsPrefix};
ghost use Rattle.classifier.specs.Matching.{Matches, HoldsIfAsked, IsIn, IsAmong};

use crate::prefixes::is_in;
use crate::rules::{Prefix, Rule};
use net_frames::Fields;
use wire_base::NextHop;

/// Whether each part that the rule asks for holds of a field that is there, the addresses last, which cost most.
pub(crate) fn is_match(rule: &Rule, fields: &Fields) -> bool
    requires { IsRule rule.now }
    ensures { MatchBool result (Matches rule.now fields.now) (¬ (Matches rule.now fields.now)) }
{
    has_vlan(rule.vlan, fields.vlan)
        && has_protocol(rule.protocol, fields.protocol)
        && has_port(rule.ports, fields.to_port)
        && has_address(&rule.from, &fields.source)
        && has_address(&rule.to, &fields.destination)
}

fn has_vlan(asked: Option<u16>, vlan: Option<u16>) -> bool
    ensures { MatchBool result (HoldsIfAsked (λ a f. f ≡ a) asked vlan) (¬ (HoldsIfAsked (λ a f. f ≡ a) asked vlan)) }
{
    match (asked, vlan) {
        (None, _) => true,
        (Some(_), None) => false,
        (Some(asked), Some(vlan)) => vlan == asked,
    }
}

fn has_address(asked: &Option<Prefix>, address: &Option<NextHop>) -> bool
    requires { FitsIfAsked IsPrefix asked.now }
    ensures { MatchBool result (HoldsIfAsked IsIn asked.now address.now) (¬ (HoldsIfAsked IsIn asked.now address.now)) }
{
    match (asked, address) {
        (None, _) => true,
        (Some(_), None) => false,
        (Some(asked), Some(address)) => is_in(asked, address),
    }
}

fn has_protocol(asked: Option<u8>, protocol: Option<u8>) -> bool
    ensures { MatchBool result (HoldsIfAsked (λ a f. f ≡ a) asked protocol) (¬ (HoldsIfAsked (λ a f. f ≡ a) asked protocol)) }
{
    match (asked, protocol) {
        (None, _) => true,
        (Some(_), None) => false,
        (Some(asked), Some(protocol)) => protocol == asked,
    }
}

/// Whether the port is from the lowest to the highest, both of which match.
fn has_port(asked: Option<(u16, u16)>, port: Option<u16>) -> bool
    ensures { MatchBool result (HoldsIfAsked IsAmong asked port) (¬ (HoldsIfAsked IsAmong asked port)) }
{
    match (asked, port) {
        (None, _) => true,
        (Some(_), None) => false,
        (Some((low, high)), Some(port)) => low <= port && port <= high,
    }
}
