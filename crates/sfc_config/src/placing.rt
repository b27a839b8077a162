//! A statement after those before it: it is refused for its first reason, or added to what was said.

ghost use Rattle.std.specs.Prelude.{◌≢◌, All, MatchBool};
ghost use Rattle.classifier.specs.Rules.{IsRule};
ghost use Rattle.sfc_routes.specs.Entries.{Serves};
ghost use Rattle.setup_statements.specs.declared.statements.Statement.TheVariants as statement;
ghost use Rattle.setup_statements.specs.Statements.{IsStatement};
ghost use Rattle.sfc_config.specs.Parts.{FitsMode};
ghost use Rattle.sfc_config.specs.Drafts.{HasRoom, IsNew};
ghost use Rattle.sfc_config.specs.Steps.{Placed};

use crate::drafts::Draft;
use crate::faults::{LineFault, SetupReason};
use bgp_session::Local;
use classifier::Rule;
use setup_statements::{Bound, Statement};
use sfc_routes::{ForwarderEntry, InstanceEntry, Rd, Roster};
use text_words::Name;
use wire_base::{Fixed, NextHop};

/// The most peers, forwarders, instances, rules and targets of a setup.
const PEERS: usize = 16;

const FORWARDERS: usize = 64;

const INSTANCES: usize = 1024;

const RULES: usize = 256;

const TARGETS: usize = 16;

/// Whether one of some peers has a number.
fn has_peer(peers: &[(u16, u32)], number: u16) -> bool
    ensures { MatchBool result (All (λ q. q.0 ≢ number) peers.now → ⊥) (All (λ q. q.0 ≢ number) peers.now) }
{
    for peer in peers {
        if peer.0 == number {
            return true;
        }
    }
    false
}

/// Whether a roster has a target.
fn has_target(roster: &Roster, target: &Fixed<8>) -> bool
    ensures { MatchBool result (All (λ u. u ≢ target.now) roster.now.targets → ⊥) (All (λ u. u ≢ target.now) roster.now.targets) }
{
    roster.has_target(target)
}

/// Whether a forwarder of a roster has a name.
fn has_forwarder(roster: &Roster, name: &Name) -> bool
    ensures { MatchBool result (All (λ f. f.name ≢ name.now) roster.now.forwarders → ⊥) (All (λ f. f.name ≢ name.now) roster.now.forwarders) }
{
    match roster.forwarder_named(name.as_str()) {
        Some(_) => true,
        None => false,
    }
}

/// Whether a forwarder of a roster is at an address.
fn has_address(roster: &Roster, address: &NextHop) -> bool
    ensures { MatchBool result (All (λ f. f.address ≢ address.now) roster.now.forwarders → ⊥) (All (λ f. f.address ≢ address.now) roster.now.forwarders) }
{
    match roster.forwarder_at(address) {
        Some(_) => true,
        None => false,
    }
}

/// Whether an instance of a roster has a name.
fn has_instance(roster: &Roster, name: &Name) -> bool
    ensures { MatchBool result (All (λ i. i.name ≢ name.now) roster.now.instances → ⊥) (All (λ i. i.name ≢ name.now) roster.now.instances) }
{
    match roster.instance_named(name.as_str()) {
        Some(_) => true,
        None => false,
    }
}

/// Whether an instance of a roster has an RD and a type.
fn has_service(roster: &Roster, rd: &Rd, kind: u16) -> bool
    ensures { MatchBool result (All (λ i. ¬ (Serves rd.now kind i)) roster.now.instances → ⊥) (All (λ i. ¬ (Serves rd.now kind i)) roster.now.instances) }
{
    match roster.instance_at(rd, kind) {
        Some(_) => true,
        None => false,
    }
}

fn place_local(draft: &mut Draft, local: Local) -> Result<(), LineFault>
    ensures { Placed draft.old (statement.Local local) result draft.new }
{
    match draft.local {
        Some(_) => Err(LineFault::Reason(SetupReason::Twice)),
        None => {
            draft.local = Some(local);
            Ok(())
        }
    }
}

fn place_target(draft: &mut Draft, target: Fixed<8>) -> Result<(), LineFault>
    ensures { Placed draft.old (statement.Target target) result draft.new }
{
    if TARGETS <= draft.roster.targets() {
        return Err(LineFault::Reason(SetupReason::Count));
    }
    if has_target(&draft.roster, &target) {
        return Err(LineFault::Reason(SetupReason::Twice));
    }
    match draft.roster.add_target(target) {
        Ok(()) => Ok(()),
        Err(_) => Err(LineFault::OutOfMemory),
    }
}

fn place_peer(draft: &mut Draft, peer: (u16, u32)) -> Result<(), LineFault>
    ensures { Placed draft.old (statement.Peer peer) result draft.new }
{
    if PEERS <= draft.peers.as_slice().len() {
        return Err(LineFault::Reason(SetupReason::Count));
    }
    if has_peer(draft.peers.as_slice(), peer.0) {
        return Err(LineFault::Reason(SetupReason::Twice));
    }
    match draft.peers.push(peer) {
        Ok(()) => Ok(()),
        Err(_) => Err(LineFault::OutOfMemory),
    }
}

fn place_forwarder(draft: &mut Draft, entry: ForwarderEntry) -> Result<(), LineFault>
    ensures { Placed draft.old (statement.Forwarder entry) result draft.new }
{
    if FORWARDERS <= draft.roster.forwarders() {
        return Err(LineFault::Reason(SetupReason::Count));
    }
    if has_forwarder(&draft.roster, &entry.name) {
        return Err(LineFault::Reason(SetupReason::Twice));
    }
    if has_address(&draft.roster, &entry.address) {
        return Err(LineFault::Reason(SetupReason::Twice));
    }
    match draft
        .roster
        .add_forwarder(entry.name.as_str(), entry.address)
    {
        Ok(_) => Ok(()),
        Err(_) => Err(LineFault::OutOfMemory),
    }
}

fn place_ingress(draft: &mut Draft, name: &Name) -> Result<(), LineFault>
    ensures { Placed draft.old (statement.Ingress name.now) result draft.new }
{
    match draft.roster.forwarder_named(name.as_str()) {
        None => Err(LineFault::Reason(SetupReason::Name)),
        Some(id) => match draft.ingress {
            Some(_) => Err(LineFault::Reason(SetupReason::Twice)),
            None => {
                draft.ingress = Some(id);
                Ok(())
            }
        },
    }
}

fn place_instance(draft: &mut Draft, entry: InstanceEntry, bound: Bound) -> Result<(), LineFault>
    ensures { Placed draft.old (statement.Instance entry bound) result draft.new }
{
    if INSTANCES <= draft.roster.instances() {
        return Err(LineFault::Reason(SetupReason::Count));
    }
    if has_instance(&draft.roster, &entry.name) {
        return Err(LineFault::Reason(SetupReason::Twice));
    }
    if has_service(&draft.roster, &entry.rd, entry.kind) {
        return Err(LineFault::Reason(SetupReason::Twice));
    }
    if bound.proxy && bound.function.is_on_metadata() {
        return Err(LineFault::Reason(SetupReason::Mode));
    }
    add_instance(draft, entry, bound)
}

fn add_instance(draft: &mut Draft, entry: InstanceEntry, bound: Bound) -> Result<(), LineFault>
    requires room { HasRoom draft.old (statement.Instance entry bound) }
    requires new { IsNew draft.old (statement.Instance entry bound) }
    requires mode { FitsMode bound }
    ensures { Placed draft.old (statement.Instance entry bound) result draft.new }
{
    match draft
        .roster
        .add_instance(entry.name.as_str(), entry.rd, entry.kind)
    {
        Ok(_) => match draft.instances.push(bound) {
            Ok(()) => Ok(()),
            Err(_) => Err(LineFault::OutOfMemory),
        },
        Err(_) => Err(LineFault::OutOfMemory),
    }
}

fn place_rule(draft: &mut Draft, rule: Rule) -> Result<(), LineFault>
    requires { IsRule rule }
    ensures { Placed draft.old (statement.Rule rule) result draft.new }
{
    if RULES <= draft.rules.len() {
        return Err(LineFault::Reason(SetupReason::Count));
    }
    match draft.rules.push(rule) {
        Ok(()) => Ok(()),
        Err(_) => Err(LineFault::OutOfMemory),
    }
}

/// Adds a statement, or tells the first reason why it may not stand here. After want of memory nothing is said of the
/// draft.
pub(crate) fn place_statement(draft: &mut Draft, statement: Statement) -> Result<(), LineFault>
    requires { IsStatement statement }
    ensures { Placed draft.old statement result draft.new }
{
    match statement {
        Statement::Local(local) => place_local(draft, local),
        Statement::Target(target) => place_target(draft, target),
        Statement::Peer(peer) => place_peer(draft, peer),
        Statement::Forwarder(entry) => place_forwarder(draft, entry),
        Statement::Ingress(name) => place_ingress(draft, &name),
        Statement::Instance(entry, bound) => place_instance(draft, entry, bound),
        Statement::Rule(rule) => place_rule(draft, rule),
    }
}
