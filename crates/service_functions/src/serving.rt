//! What a function does with a frame and its header.

ghost use Rattle.std.specs.Prelude.{◌≡◌, ◌<◌, length, MatchBool};
ghost use Rattle.service_functions.specs.Functions.{IsFunction};
ghost use Rattle.service_functions.specs.Serving.{IsTo, has_address, is_address, FrameBy, Serve, ServeFrame, ServeHeader};
ghost use Rattle.service_functions.specs.declared.functions.Function.TheVariants as function;

use crate::answers::{Served, Why};
use crate::functions::Function;
use arrayvec::ArrayVec;
use net_frames::{
    Fields, Frame, Side, lower_hop_limit, pop_vlan, push_vlan, set_dscp, set_ipv4_address,
};
use nsh_metadata::{ItemFault, Nsh};
use wire_base::{Fixed, NextHop};

/// Whether a packet is of this protocol and to a port from `low` to `high`.
fn is_to(fields: Fields, protocol: u8, low: u16, high: u16) -> bool
    ensures { MatchBool result (IsTo protocol low high fields) (IsTo protocol low high fields → ⊥) }
{
    if fields.protocol != Some(protocol) {
        return false;
    }
    match fields.to_port {
        Some(port) => low <= port && port <= high,
        None => false,
    }
}

/// Whether this is the address, of IPv4.
fn is_address(at: &Option<NextHop>, address: &Fixed<4>) -> bool
    ensures { result ≡ is_address at.now address.now }
{
    match at {
        Some(NextHop::Four(four)) => four.bytes() == address.bytes(),
        _ => false,
    }
}

/// Whether IPv4's address of one side is this one.
fn has_address(fields: &Fields, side: Side, address: &Fixed<4>) -> bool
    ensures { result ≡ has_address fields.now side address.now }
{
    match side {
        Side::Source => is_address(&fields.source, address),
        Side::Destination => is_address(&fields.destination, address),
    }
}

/// Drops a packet of this protocol to a port from `low` to `high`.
fn filter(frame: &Frame, protocol: u8, low: u16, high: u16) -> Served
    ensures { ServeFrame (function.Firewall protocol low high) frame.now result frame.now }
{
    if is_to(frame.fields(), protocol, low, high) {
        return Served::Dropped(Why::Denied);
    }
    Served::Passed
}

/// Replaces IPv4's address of one side, where it is `from`.
fn translate(frame: &mut Frame, side: Side, from: Fixed<4>, to: Fixed<4>)
    ensures { frame.new ≡ FrameBy (function.Nat side from to) frame.old }
{
    if has_address(&frame.fields(), side, &from) {
        set_ipv4_address(frame, side, to);
    }
}

/// Lowers the hop limit, or drops a frame whose limit is 0 or 1.
fn take_hop(frame: &mut Frame) -> Served
    ensures { ServeFrame function.HopLimit frame.old result frame.new }
{
    if lower_hop_limit(frame) {
        return Served::Passed;
    }
    Served::Dropped(Why::HopLimit)
}

/// Puts a tag in front, or drops a frame that has no room for it.
fn tag(frame: &mut Frame, vid: u16) -> Served
    requires { vid < 4096 }
    ensures { ServeFrame (function.PushVlan vid) frame.old result frame.new }
{
    match push_vlan(frame, vid) {
        Ok(()) => Served::Passed,
        Err(_) => Served::Dropped(Why::TooLong),
    }
}

/// Serves a frame whose header the function does not see (RFC 7665, section 4.6). The three functions on
/// metadata pass it.
pub fn serve_frame(function: &Function, frame: &mut Frame) -> Served
    requires { IsFunction function.now }
    ensures { ServeFrame function.now frame.old result frame.new }
{
    match function {
        Function::Firewall {
            protocol,
            low,
            high,
        } => return filter(frame, *protocol, *low, *high),
        Function::Remark(dscp) => set_dscp(frame, *dscp),
        Function::Nat { side, from, to } => translate(frame, *side, *from, *to),
        Function::HopLimit => return take_hop(frame),
        Function::PushVlan(vid) => return tag(frame, *vid),
        Function::PopVlan => pop_vlan(frame),
        Function::Pass
        | Function::Stamp { .. }
        | Function::RequireMeta { .. }
        | Function::ClearMeta => {}
    }
    Served::Passed
}

/// Adds an item to the header's context.
fn stamp(nsh: &mut Nsh, class: u16, kind: u8, body: &ArrayVec<u8, 127>) -> Served
    requires { length body.now.items < 128 }
    ensures { ServeHeader (function.Stamp class kind body.now) nsh.old result nsh.new }
{
    match nsh.push_item(class, kind, body.as_slice()) {
        Ok(()) => Served::Passed,
        Err(ItemFault::NoItems) => Served::Dropped(Why::Meta),
        Err(ItemFault::Full) => Served::Dropped(Why::MetaFull),
    }
}

/// Drops a frame whose header has no item of this class and type.
#[tactic(auto, using(crate::proofs::ServingLemmas::same_context))]
fn require(nsh: &Nsh, class: u16, kind: u8) -> Served
    ensures { ServeHeader (function.RequireMeta class kind) nsh.now result nsh.now }
{
    if nsh.context.has_item(class, kind) {
        return Served::Passed;
    }
    Served::Dropped(Why::Meta)
}

/// Serves a header alone, by its context. The functions that are not on metadata pass it.
pub(crate) fn serve_header(function: &Function, nsh: &mut Nsh) -> Served
    requires { IsFunction function.now }
    ensures { ServeHeader function.now nsh.old result nsh.new }
{
    match function {
        Function::Stamp { class, kind, body } => stamp(nsh, *class, *kind, body),
        Function::RequireMeta { class, kind } => require(nsh, *class, *kind),
        Function::ClearMeta => {
            nsh.clear_context();
            Served::Passed
        }
        _ => Served::Passed,
    }
}

/// Serves a frame and its header (RFC 7665, section 4.2). Where the function drops the frame, neither changes.
pub fn serve(function: &Function, frame: &mut Frame, nsh: &mut Nsh) -> Served
    requires { IsFunction function.now }
    ensures { Serve function.now frame.old nsh.old result frame.new nsh.new }
{
    if function.is_on_metadata() {
        serve_header(function, nsh)
    } else {
        serve_frame(function, frame)
    }
}
