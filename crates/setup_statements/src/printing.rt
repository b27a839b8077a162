//! The lines of statements, as they are printed.

ghost use Rattle.std.specs.Prelude.{◌≡◌, ◌++◌, ◌∷◌, OnOk, codes};
ghost use Rattle.std.specs.Fmt.{decimal};
ghost use Rattle.text_words.specs.Hexadecimal.{hexadecimal, four_digits, octets_or_dash};
ghost use Rattle.text_words.specs.Addresses.{dotted, address_text};
ghost use Rattle.setup_statements.specs.declared.statements.Statement.TheVariants as statement;
ghost use Rattle.service_functions.specs.declared.functions.Function.TheVariants as function;
ghost use Rattle.classifier.specs.declared.rules.Action.TheVariants as action;
ghost use Rattle.setup_statements.specs.Keywords.{function_word_text};
ghost use Rattle.setup_statements.specs.FunctionText.{port_protocol, side_text, function_words};
ghost use Rattle.setup_statements.specs.RuleText.{star_or, prefix_text, protocol_text, ports_text, context_text, action_words};
ghost use Rattle.setup_statements.specs.Statements.{octets_of, mode_text, said, ended_line};

use crate::keywords::FunctionWord;
use crate::statements::Bound;
use arrayvec::ArrayVec;
use bgp_session::Local;
use classifier::{Action, Prefix, Rule};
use net_frames::Side;
use nsh_metadata::Context;
use service_functions::Function;
use sfc_routes::Rd;
use text_words::{
    print_address, print_dotted, print_four_digits, print_number, print_octets,
    print_octets_or_dash,
};
use wire_base::{Bytes, Fixed, NextHop, OutOfMemory, Spi};

/// Appends a space and a word.
fn say(out: &mut Bytes, word: &[u8]) -> Result<(), OutOfMemory>
    ensures { OnOk result (out.new ≡ out.old ++ 32 ∷ word.now) }
{
    out.push_all(b" ")?;
    out.push_all(word)?;
    Ok(())
}

/// Appends a space and a number.
fn say_number(out: &mut Bytes, number: u64) -> Result<(), OutOfMemory>
    ensures { OnOk result (out.new ≡ out.old ++ 32 ∷ decimal number) }
{
    out.push_all(b" ")?;
    print_number(out, number)?;
    Ok(())
}

/// Appends a space and four numbers joined by points.
fn say_dotted(out: &mut Bytes, octets: &Fixed<4>) -> Result<(), OutOfMemory>
    ensures { OnOk result (out.new ≡ out.old ++ 32 ∷ dotted octets.now) }
{
    out.push_all(b" ")?;
    print_dotted(out, octets)?;
    Ok(())
}

/// Appends a space and an address.
fn say_address(out: &mut Bytes, address: &NextHop) -> Result<(), OutOfMemory>
    ensures { OnOk result (out.new ≡ out.old ++ 32 ∷ address_text address.now) }
{
    out.push_all(b" ")?;
    print_address(out, address)?;
    Ok(())
}

/// Appends a space and the digits of 8 bytes.
fn say_octets(out: &mut Bytes, octets: &Fixed<8>) -> Result<(), OutOfMemory>
    ensures { OnOk result (out.new ≡ out.old ++ 32 ∷ hexadecimal octets.now) }
{
    out.push_all(b" ")?;
    print_octets(out, octets.bytes())?;
    Ok(())
}

/// Appends a space and four digits.
fn say_four_digits(out: &mut Bytes, number: u16) -> Result<(), OutOfMemory>
    ensures { OnOk result (out.new ≡ out.old ++ 32 ∷ four_digits number) }
{
    out.push_all(b" ")?;
    print_four_digits(out, number)?;
    Ok(())
}

/// The word of a protocol with ports.
fn port_protocol_word(protocol: u8) -> &'static [u8]
    ensures { result.now ≡ port_protocol protocol }
{
    if protocol == 6 { b"tcp" } else { b"udp" }
}

/// The word of a side.
fn side_word(side: Side) -> &'static [u8]
    ensures { result.now ≡ side_text side }
{
    match side {
        Side::Source => b"source",
        Side::Destination => b"destination",
    }
}

/// Appends a space and the word of a function.
fn say_function_word(out: &mut Bytes, word: FunctionWord) -> Result<(), OutOfMemory>
    ensures { OnOk result (out.new ≡ out.old ++ 32 ∷ function_word_text word) }
{
    say(out, word.text().as_bytes())
}

fn say_firewall(out: &mut Bytes, protocol: u8, low: u16, high: u16) -> Result<(), OutOfMemory>
    ensures { OnOk result (out.new ≡ said out.old (function_words (function.Firewall protocol low high))) }
{
    say_function_word(out, FunctionWord::Firewall)?;
    say(out, port_protocol_word(protocol))?;
    say_number(out, u64::from(low))?;
    say_number(out, u64::from(high))?;
    Ok(())
}

fn say_remark(out: &mut Bytes, dscp: u8) -> Result<(), OutOfMemory>
    ensures { OnOk result (out.new ≡ said out.old (function_words (function.Remark dscp))) }
{
    say_function_word(out, FunctionWord::Remark)?;
    say_number(out, u64::from(dscp))?;
    Ok(())
}

fn say_nat(out: &mut Bytes, side: Side, from: &Fixed<4>, to: &Fixed<4>) -> Result<(), OutOfMemory>
    ensures { OnOk result (out.new ≡ said out.old (function_words (function.Nat side from.now to.now))) }
{
    say_function_word(out, FunctionWord::Nat)?;
    say(out, side_word(side))?;
    say_dotted(out, from)?;
    say_dotted(out, to)?;
    Ok(())
}

fn say_push_vlan(out: &mut Bytes, vid: u16) -> Result<(), OutOfMemory>
    ensures { OnOk result (out.new ≡ said out.old (function_words (function.PushVlan vid))) }
{
    say_function_word(out, FunctionWord::PushVlan)?;
    say_number(out, u64::from(vid))?;
    Ok(())
}

/// Appends a space and the digits of the body, or a dash.
fn say_body(out: &mut Bytes, body: &ArrayVec<u8, 127>) -> Result<(), OutOfMemory>
    ensures { OnOk result (out.new ≡ out.old ++ 32 ∷ octets_or_dash body.now.items) }
{
    out.push_all(b" ")?;
    print_octets_or_dash(out, body.as_slice())?;
    Ok(())
}

fn say_stamp(
    out: &mut Bytes,
    class: u16,
    kind: u8,
    body: &ArrayVec<u8, 127>,
) -> Result<(), OutOfMemory>
    ensures { OnOk result (out.new ≡ said out.old (function_words (function.Stamp class kind body.now))) }
{
    say_function_word(out, FunctionWord::Stamp)?;
    say_four_digits(out, class)?;
    say_number(out, u64::from(kind))?;
    say_body(out, body)?;
    Ok(())
}

fn say_require_meta(out: &mut Bytes, class: u16, kind: u8) -> Result<(), OutOfMemory>
    ensures { OnOk result (out.new ≡ said out.old (function_words (function.RequireMeta class kind))) }
{
    say_function_word(out, FunctionWord::RequireMeta)?;
    say_four_digits(out, class)?;
    say_number(out, u64::from(kind))?;
    Ok(())
}

/// Appends the words of a function.
pub(crate) fn say_function(out: &mut Bytes, function: &Function) -> Result<(), OutOfMemory>
    ensures { OnOk result (out.new ≡ said out.old (function_words function.now)) }
{
    match function {
        Function::Pass => say_function_word(out, FunctionWord::Pass),
        Function::Firewall {
            protocol,
            low,
            high,
        } => say_firewall(out, *protocol, *low, *high),
        Function::Remark(dscp) => say_remark(out, *dscp),
        Function::Nat { side, from, to } => say_nat(out, *side, from, to),
        Function::HopLimit => say_function_word(out, FunctionWord::HopLimit),
        Function::PushVlan(vid) => say_push_vlan(out, *vid),
        Function::PopVlan => say_function_word(out, FunctionWord::PopVlan),
        Function::Stamp { class, kind, body } => say_stamp(out, *class, *kind, body),
        Function::RequireMeta { class, kind } => say_require_meta(out, *class, *kind),
        Function::ClearMeta => say_function_word(out, FunctionWord::ClearMeta),
    }
}

/// Appends a space and a VLAN identifier or a star.
fn say_vlan(out: &mut Bytes, vlan: Option<u16>) -> Result<(), OutOfMemory>
    ensures { OnOk result (out.new ≡ out.old ++ 32 ∷ star_or decimal vlan) }
{
    match vlan {
        None => say(out, b"*"),
        Some(vlan) => say_number(out, u64::from(vlan)),
    }
}

/// Appends a space and a network.
fn say_network(out: &mut Bytes, prefix: &Prefix) -> Result<(), OutOfMemory>
    ensures { OnOk result (out.new ≡ out.old ++ 32 ∷ prefix_text prefix.now) }
{
    say_address(out, &prefix.address)?;
    out.push_all(b"/")?;
    print_number(out, u64::from(prefix.bits))?;
    Ok(())
}

/// Appends a space and a network or a star.
fn say_prefix(out: &mut Bytes, prefix: &Option<Prefix>) -> Result<(), OutOfMemory>
    ensures { OnOk result (out.new ≡ out.old ++ 32 ∷ star_or prefix_text prefix.now) }
{
    match prefix {
        None => say(out, b"*"),
        Some(prefix) => say_network(out, prefix),
    }
}

/// Appends a space and a protocol.
fn say_number_or_name(out: &mut Bytes, protocol: u8) -> Result<(), OutOfMemory>
    ensures { OnOk result (out.new ≡ out.old ++ 32 ∷ protocol_text protocol) }
{
    match protocol {
        6 | 17 => say(out, port_protocol_word(protocol)),
        _ => say_number(out, u64::from(protocol)),
    }
}

/// Appends a space and a protocol or a star.
fn say_protocol(out: &mut Bytes, protocol: Option<u8>) -> Result<(), OutOfMemory>
    ensures { OnOk result (out.new ≡ out.old ++ 32 ∷ star_or protocol_text protocol) }
{
    match protocol {
        None => say(out, b"*"),
        Some(protocol) => say_number_or_name(out, protocol),
    }
}

/// Appends a space and a range of ports.
fn say_range(out: &mut Bytes, ports: (u16, u16)) -> Result<(), OutOfMemory>
    ensures { OnOk result (out.new ≡ out.old ++ 32 ∷ ports_text ports) }
{
    say_number(out, u64::from(ports.0))?;
    out.push_all(b"-")?;
    print_number(out, u64::from(ports.1))?;
    Ok(())
}

/// Appends a space and a range of ports or a star.
fn say_ports(out: &mut Bytes, ports: Option<(u16, u16)>) -> Result<(), OutOfMemory>
    ensures { OnOk result (out.new ≡ out.old ++ 32 ∷ star_or ports_text ports) }
{
    match ports {
        None => say(out, b"*"),
        Some(ports) => say_range(out, ports),
    }
}

/// Appends a space and the context of MD Type 1.
fn say_fixed(out: &mut Bytes, bytes: &Fixed<16>) -> Result<(), OutOfMemory>
    ensures { OnOk result (out.new ≡ out.old ++ 32 ∷ (codes "md1:" ++ hexadecimal bytes.now)) }
{
    say(out, b"md1:")?;
    print_octets(out, bytes.bytes())?;
    Ok(())
}

/// Appends a space and a context.
fn say_context(out: &mut Bytes, context: &Context) -> Result<(), OutOfMemory>
    ensures { OnOk result (out.new ≡ out.old ++ 32 ∷ context_text context.now) }
{
    match context {
        Context::Fixed16(bytes) => say_fixed(out, bytes),
        Context::Items(_) => say(out, b"md2"),
    }
}

fn say_path(
    out: &mut Bytes,
    spi: Spi,
    si: u8,
    ttl: u8,
    context: &Context,
) -> Result<(), OutOfMemory>
    ensures { OnOk result (out.new ≡ said out.old (action_words (action.Path spi si ttl context.now))) }
{
    say(out, b"path")?;
    say_number(out, u64::from(spi.number()))?;
    say_number(out, u64::from(si))?;
    say_number(out, u64::from(ttl))?;
    say_context(out, context)?;
    Ok(())
}

/// Appends the words of what a frame gets.
fn say_action(out: &mut Bytes, action: &Action) -> Result<(), OutOfMemory>
    ensures { OnOk result (out.new ≡ said out.old (action_words action.now)) }
{
    match action {
        Action::Path(spi, si, ttl, context) => say_path(out, *spi, *si, *ttl, context),
        Action::Bypass => say(out, b"bypass"),
        Action::Refuse => say(out, b"refuse"),
    }
}

/// Appends a space and an identifier.
fn say_identifier(out: &mut Bytes, id: u32) -> Result<(), OutOfMemory>
    ensures { OnOk result (out.new ≡ out.old ++ 32 ∷ dotted (octets_of id)) }
{
    let octets = [
        (id >> 24) as u8,
        (id >> 16 & 0xff) as u8,
        (id >> 8 & 0xff) as u8,
        (id & 0xff) as u8,
    ];
    match Fixed::of(&octets) {
        Some(octets) => say_dotted(out, &octets),
        None => unreachable!(),
    }
}

/// Appends the line of the local side, with its end. After want of memory, here and in the calls
/// below, a part of the line may have been appended.
pub fn print_local(out: &mut Bytes, local: &Local) -> Result<(), OutOfMemory>
    ensures { OnOk result (out.new ≡ out.old ++ ended_line (statement.Local local.now)) }
{
    out.push_all(b"local")?;
    say_number(out, u64::from(local.asn))?;
    say_identifier(out, local.id)?;
    say_number(out, u64::from(local.hold))?;
    out.push_all(b"\n")?;
    Ok(())
}

/// Appends the line of a target.
pub fn print_target(out: &mut Bytes, target: &Fixed<8>) -> Result<(), OutOfMemory>
    ensures { OnOk result (out.new ≡ out.old ++ ended_line (statement.Target target.now)) }
{
    out.push_all(b"target")?;
    say_octets(out, target)?;
    out.push_all(b"\n")?;
    Ok(())
}

/// Appends the line of a peer's number and AS.
pub fn print_peer(out: &mut Bytes, peer: (u16, u32)) -> Result<(), OutOfMemory>
    ensures { OnOk result (out.new ≡ out.old ++ ended_line (statement.Peer peer)) }
{
    out.push_all(b"peer")?;
    say_number(out, u64::from(peer.0))?;
    say_number(out, u64::from(peer.1))?;
    out.push_all(b"\n")?;
    Ok(())
}

/// Appends the line of a forwarder.
pub fn print_forwarder(out: &mut Bytes, name: &str, address: &NextHop) -> Result<(), OutOfMemory>
    ensures { OnOk result (out.new ≡ out.old ++ ended_line (statement.Forwarder (record { name = name.now; address = address.now }))) }
{
    out.push_all(b"forwarder")?;
    say(out, name.as_bytes())?;
    say_address(out, address)?;
    out.push_all(b"\n")?;
    Ok(())
}

/// Appends the line of the forwarder where frames come in.
pub fn print_ingress(out: &mut Bytes, name: &str) -> Result<(), OutOfMemory>
    ensures { OnOk result (out.new ≡ out.old ++ ended_line (statement.Ingress name.now)) }
{
    out.push_all(b"ingress")?;
    say(out, name.as_bytes())?;
    out.push_all(b"\n")?;
    Ok(())
}

/// The word for whether an instance is behind a proxy.
fn mode_word(proxy: bool) -> &'static [u8]
    ensures { result.now ≡ mode_text proxy }
{
    if proxy { b"proxy" } else { b"aware" }
}

/// Appends the line of an instance.
pub fn print_instance(
    out: &mut Bytes,
    name: &str,
    rd: &Rd,
    kind: u16,
    bound: &Bound,
) -> Result<(), OutOfMemory>
    ensures { OnOk result (out.new ≡ out.old ++ ended_line (statement.Instance (record { name = name.now; rd = rd.now; kind = kind }) bound.now)) }
{
    out.push_all(b"instance")?;
    say(out, name.as_bytes())?;
    say_octets(out, rd)?;
    say_number(out, u64::from(kind))?;
    say(out, mode_word(bound.proxy))?;
    say_function(out, &bound.function)?;
    out.push_all(b"\n")?;
    Ok(())
}

/// Appends the line of a rule.
pub fn print_rule(out: &mut Bytes, rule: &Rule) -> Result<(), OutOfMemory>
    ensures { OnOk result (out.new ≡ out.old ++ ended_line (statement.Rule rule.now)) }
{
    out.push_all(b"rule")?;
    say_vlan(out, rule.vlan)?;
    say_prefix(out, &rule.from)?;
    say_prefix(out, &rule.to)?;
    say_protocol(out, rule.protocol)?;
    say_ports(out, rule.ports)?;
    say_action(out, &rule.action)?;
    out.push_all(b"\n")?;
    Ok(())
}
