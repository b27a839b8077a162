ghost use Rattle.std.specs.Prelude.{◌≡◌, ◌<◌, ◌∷◌, ◌++◌, length, OnOk, IfOk};
ghost use Rattle.std.specs.List.{flat_map, AllByRecursion};
ghost use Rattle.wire_base.specs.Numbers.{two, three};
ghost use Rattle.bgp_update.specs.Nlris.{nlri_bytes, list_bytes, NlriFits, ListFits};
ghost use Rattle.bgp_update.specs.Attributes.{family, hop_bytes, reach_bytes, body_bytes, BodyFits, size_bytes, size_limit, attribute_bytes, attributes_bytes, AttributeFits};
ghost use Rattle.bgp_update.specs.Updates.{UpdateFits, IsUpdate};

use crate::attributes::{Attribute, Body, MpReach};
use crate::pieces::is_long;
use crate::routes::Nlri;
use crate::updates::Update;
use std::alloc::Global;
use wire_base::{Bytes, Fixed, List, NextHop, OutOfMemory, Spi};

/// The bytes of AFI 31 and SAFI 9.
const FAMILY: [u8; 3] = [0, 31, 9];

fn put_sfir(out: &mut Bytes, rd: &Fixed<8>, kind: u16) -> Result<(), OutOfMemory>
    ensures { OnOk result (out.new ≡ out.old ++ (0 ∷ 1 ∷ 0 ∷ 10 ∷ rd.now ++ two kind)) }
{
    out.push_all(&[0, 1, 0, 10])?;
    out.push_all(rd.bytes())?;
    out.push_u16(kind)?;
    Ok(())
}

fn put_sfpr(out: &mut Bytes, rd: &Fixed<8>, spi: &Spi) -> Result<(), OutOfMemory>
    ensures { OnOk result (out.new ≡ out.old ++ (0 ∷ 2 ∷ 0 ∷ 11 ∷ rd.now ++ three spi.now)) }
{
    out.push_all(&[0, 2, 0, 11])?;
    out.push_all(rd.bytes())?;
    out.push_u24(spi.number())?;
    Ok(())
}

fn put_other(out: &mut Bytes, kind: u16, body: &[u8]) -> Result<(), OutOfMemory>
    requires { length body.now < 65536 }
    ensures { OnOk result (out.new ≡ out.old ++ (two kind ++ two (length body.now) ++ body.now)) }
{
    out.push_u16(kind)?;
    out.push_u16(body.len() as u16)?;
    out.push_all(body)?;
    Ok(())
}

fn put_nlri(out: &mut Bytes, route: &Nlri) -> Result<(), OutOfMemory>
    requires { NlriFits route.now }
    ensures { OnOk result (out.new ≡ out.old ++ nlri_bytes route.now) }
{
    match route {
        Nlri::Sfir { rd, kind } => put_sfir(out, rd, *kind),
        Nlri::Sfpr { rd, spi } => put_sfpr(out, rd, spi),
        Nlri::Other { kind, body } => put_other(out, *kind, body.as_slice()),
    }
}

/// The routes, one behind the other.
fn list_of(alloc: Global, routes: &[Nlri]) -> Result<Bytes, OutOfMemory>
    requires { ListFits routes.now }
    ensures { IfOk result (λ bytes. bytes ≡ list_bytes routes.now) }
{
    let mut out = Bytes::new(alloc);
    for route in routes {
        put_nlri(&mut out, route)?;
    }
    Ok(out)
}

fn communities_of(alloc: Global, communities: &[Fixed<8>]) -> Result<Bytes, OutOfMemory>
    ensures { IfOk result (λ bytes. bytes ≡ flat_map (λ c. c) communities.now) }
{
    let mut out = Bytes::new(alloc);
    for community in communities {
        out.push_all(community.bytes())?;
    }
    Ok(out)
}

fn put_hop(out: &mut Bytes, hop: &NextHop) -> Result<(), OutOfMemory>
    ensures { OnOk result (out.new ≡ out.old ++ (length (hop_bytes hop.now) ∷ hop_bytes hop.now)) }
{
    match hop {
        NextHop::Four(address) => {
            out.push_all(&[4])?;
            out.push_all(address.bytes())?;
        }
        NextHop::Sixteen(address) => {
            out.push_all(&[16])?;
            out.push_all(address.bytes())?;
        }
    }
    Ok(())
}

fn reach_of(alloc: Global, reach: &MpReach) -> Result<Bytes, OutOfMemory>
    requires { ListFits reach.now.nlri }
    ensures { IfOk result (λ bytes. bytes ≡ family ++ reach_bytes reach.now) }
{
    let list = list_of(alloc, reach.nlri.as_slice())?;
    let mut out = Bytes::new(alloc);
    out.push_all(&FAMILY)?;
    put_hop(&mut out, &reach.next_hop)?;
    out.push_all(&[reach.reserved])?;
    out.push_all(list.as_slice())?;
    Ok(out)
}

fn unreach_of(alloc: Global, routes: &List<Nlri>) -> Result<Bytes, OutOfMemory>
    requires { ListFits routes.now }
    ensures { IfOk result (λ bytes. bytes ≡ family ++ list_bytes routes.now) }
{
    let list = list_of(alloc, routes.as_slice())?;
    let mut out = Bytes::new(alloc);
    out.push_all(&FAMILY)?;
    out.push_all(list.as_slice())?;
    Ok(out)
}

/// The bytes of an attribute's value, without its flags, kind and length.
fn value_of(alloc: Global, attribute: &Attribute) -> Result<Bytes, OutOfMemory>
    requires { AttributeFits attribute.now }
    ensures { IfOk result (λ value. value ≡ body_bytes attribute.now.body) }
{
    match &attribute.body {
        Body::Reach(reach) => reach_of(alloc, reach),
        Body::Unreach(unreach) => unreach_of(alloc, &unreach.nlri),
        Body::Communities(communities) => communities_of(alloc, communities.as_slice()),
        Body::Raw(bytes) => Bytes::copy_of(alloc, bytes.as_slice()),
    }
}

/// The length of a value, in 2 bytes where flag 0x10 is set, else in one.
fn put_size(out: &mut Bytes, flags: u8, size: usize) -> Result<(), OutOfMemory>
    requires { size < size_limit flags }
    ensures { OnOk result (out.new ≡ out.old ++ size_bytes flags size) }
{
    if is_long(flags) {
        out.push_u16(size as u16)?;
    } else {
        out.push_all(&[size as u8])?;
    }
    Ok(())
}

fn put_attribute(alloc: Global, out: &mut Bytes, attribute: &Attribute) -> Result<(), OutOfMemory>
    requires { AttributeFits attribute.now }
    ensures { OnOk result (out.new ≡ out.old ++ attribute_bytes attribute.now) }
{
    let value = value_of(alloc, attribute)?;
    let value = value.as_slice();
    out.push_all(&[attribute.flags, attribute.kind])?;
    put_size(out, attribute.flags, value.len())?;
    out.push_all(value)?;
    Ok(())
}

/// The attributes, one behind the other.
fn attributes_of(alloc: Global, attributes: &[Attribute]) -> Result<Bytes, OutOfMemory>
    requires { AllByRecursion AttributeFits attributes.now }
    ensures { IfOk result (λ bytes. bytes ≡ attributes_bytes attributes.now) }
{
    let mut out = Bytes::new(alloc);
    for attribute in attributes {
        put_attribute(alloc, &mut out, attribute)?;
    }
    Ok(out)
}

/// The one spelling of an update (RFC 4271, section 4.3), without the message header. `decode_update` reads it as this
/// update again.
pub fn encode_update(alloc: Global, update: &Update) -> Result<Bytes, OutOfMemory>
    requires { UpdateFits update.now }
    ensures { IfOk result (λ bytes. IsUpdate bytes update.now) }
{
    let attributes = attributes_of(alloc, update.attributes.as_slice())?;
    let attributes = attributes.as_slice();
    let withdrawn = update.withdrawn.as_slice();
    let mut out = Bytes::new(alloc);
    out.push_u16(withdrawn.len() as u16)?;
    out.push_all(withdrawn)?;
    out.push_u16(attributes.len() as u16)?;
    out.push_all(attributes)?;
    out.push_all(update.nlri.as_slice())?;
    Ok(out)
}
