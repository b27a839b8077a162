//! The text of a setup.

ghost use Rattle.std.specs.Prelude.{◌≡◌, ◌++◌, map, length, OnOk, IfOk};
ghost use Rattle.setup_statements.specs.declared.statements.Statement.TheVariants as statement;
ghost use Rattle.sfc_config.specs.Printed.{instances_of, printed, IsPrinted};
ghost use Rattle.sfc_config.specs.Texts.{IsSetup};

use crate::setups::Setup;
use classifier::RuleList;
use setup_statements::{
    Bound, print_forwarder, print_ingress, print_instance, print_local, print_peer, print_rule,
    print_target,
};
use sfc_routes::Roster;
use std::alloc::Global;
use wire_base::{Bytes, ForwarderId, InstanceId, OutOfMemory};

/// Appends the lines of all targets.
fn print_targets(out: &mut Bytes, roster: &Roster) -> Result<(), OutOfMemory>
    ensures { OnOk result (out.new ≡ out.old ++ printed (map statement.Target roster.now.targets)) }
{
    for i in 0..roster.targets() {
        print_target(out, &roster.target(i))?;
    }
    Ok(())
}

/// Appends the lines of all peers.
fn print_peers(out: &mut Bytes, peers: &[(u16, u32)]) -> Result<(), OutOfMemory>
    ensures { OnOk result (out.new ≡ out.old ++ printed (map statement.Peer peers.now)) }
{
    for peer in peers {
        print_peer(out, *peer)?;
    }
    Ok(())
}

/// Appends the lines of all forwarders.
fn print_forwarders(out: &mut Bytes, roster: &Roster) -> Result<(), OutOfMemory>
    ensures { OnOk result (out.new ≡ out.old ++ printed (map statement.Forwarder roster.now.forwarders)) }
{
    for i in 0..roster.forwarders() {
        let id = ForwarderId(i as u8);
        print_forwarder(out, roster.forwarder_name(id), roster.address_of(id))?;
    }
    Ok(())
}

/// Appends the lines of all instances.
fn print_instances(out: &mut Bytes, roster: &Roster, bounds: &[Bound]) -> Result<(), OutOfMemory>
    requires { length bounds.now ≡ length roster.now.instances }
    ensures { OnOk result (out.new ≡ out.old ++ printed (instances_of roster.now.instances bounds.now)) }
{
    for i in 0..roster.instances() {
        let id = InstanceId(i as u16);
        let rd = roster.rd_of(id);
        print_instance(
            out,
            roster.instance_name(id),
            &rd,
            roster.kind_of(id),
            &bounds[i],
        )?;
    }
    Ok(())
}

/// Appends the lines of all rules.
fn print_rules(out: &mut Bytes, rules: &RuleList) -> Result<(), OutOfMemory>
    ensures { OnOk result (out.new ≡ out.old ++ printed (map statement.Rule rules.now)) }
{
    for i in 0..rules.len() {
        print_rule(out, rules.rule(i))?;
    }
    Ok(())
}

/// Writes a setup as its text: local side, targets, peers, forwarders, ingress, instances and rules, each statement on
/// a line of its own, with one space between its words.
///
/// The text spells the setup, so parsing it gives the setup again.
pub fn print_setup(alloc: Global, setup: &Setup) -> Result<Bytes, OutOfMemory>
    ensures order { IfOk result (λ text. IsPrinted setup.now text) }
    ensures spelled { IfOk result (λ text. IsSetup text setup.now) }
{
    let mut out = Bytes::new(alloc);
    print_local(&mut out, &setup.local)?;
    print_targets(&mut out, &setup.roster)?;
    print_peers(&mut out, setup.peers.as_slice())?;
    print_forwarders(&mut out, &setup.roster)?;
    print_ingress(&mut out, setup.roster.forwarder_name(setup.ingress))?;
    print_instances(&mut out, &setup.roster, setup.instances.as_slice())?;
    print_rules(&mut out, &setup.rules)?;
    Ok(out)
}
