ghost use Rattle.std.specs.Prelude.{◌≡◌, ◌<◌, ◌^◌, ◌∷◌, ◌++◌, length, OnOk, IfOk};
ghost use Rattle.std.specs.List.{flat_map, AllByRecursion};
ghost use Rattle.wire_base.specs.Numbers.{two, three};
ghost use Rattle.sfp_attribute.specs.Sfps.{piece_bytes, hop_part_bytes, HopPartFits, hop_parts_bytes, HopPartsFit, part_bytes, PartFits, parts_bytes, SfpFits, IsSfp};

use crate::levels::{HOP, SFT};
use crate::sfps::{HopPart, Part, Sfp};
use std::alloc::Global;
use wire_base::{Bytes, Fixed, List, OutOfMemory, Spi};

/// A part: its kind, the length of its value, the value.
fn put_piece(out: &mut Bytes, kind: u8, value: &[u8]) -> Result<(), OutOfMemory>
    requires { length value.now < 2 ^ 16 }
    ensures { OnOk result (out.new ≡ out.old ++ piece_bytes kind value.now) }
{
    out.push_all(&[kind])?;
    out.push_u16(value.len() as u16)?;
    out.push_all(value)?;
    Ok(())
}

/// The value of an SFT.
fn sft_value(alloc: Global, kind: u16, rds: &[Fixed<8>]) -> Result<Bytes, OutOfMemory>
    ensures { IfOk result (λ value. value ≡ two kind ++ flat_map (λ rd. rd) rds.now) }
{
    let mut out = Bytes::new(alloc);
    out.push_u16(kind)?;
    for rd in rds {
        out.push_all(rd.bytes())?;
    }
    Ok(out)
}

fn put_sft(
    alloc: Global,
    out: &mut Bytes,
    kind: u16,
    rds: &List<Fixed<8>>,
) -> Result<(), OutOfMemory>
    requires { length (two kind ++ flat_map (λ rd. rd) rds.now) < 2 ^ 16 }
    ensures { OnOk result (out.new ≡ out.old ++ piece_bytes 3 (two kind ++ flat_map (λ rd. rd) rds.now)) }
{
    let value = sft_value(alloc, kind, rds.as_slice())?;
    put_piece(out, SFT, value.as_slice())
}

fn put_hop_part(alloc: Global, out: &mut Bytes, part: &HopPart) -> Result<(), OutOfMemory>
    requires { HopPartFits part.now }
    ensures { OnOk result (out.new ≡ out.old ++ hop_part_bytes part.now) }
{
    match part {
        HopPart::Sft { kind, rds } => put_sft(alloc, out, *kind, rds),
        HopPart::Other { kind, body } => put_piece(out, *kind, body.as_slice()),
    }
}

/// The value of a hop.
fn hop_value(alloc: Global, si: u8, parts: &[HopPart]) -> Result<Bytes, OutOfMemory>
    requires { HopPartsFit parts.now }
    ensures { IfOk result (λ value. value ≡ si ∷ hop_parts_bytes parts.now) }
{
    let mut out = Bytes::new(alloc);
    out.push_all(&[si])?;
    for part in parts {
        put_hop_part(alloc, &mut out, part)?;
    }
    Ok(out)
}

fn put_hop(alloc: Global, out: &mut Bytes, si: u8, parts: &List<HopPart>) -> Result<(), OutOfMemory>
    requires fit { HopPartsFit parts.now }
    requires size { length (si ∷ hop_parts_bytes parts.now) < 2 ^ 16 }
    ensures { OnOk result (out.new ≡ out.old ++ piece_bytes 2 (si ∷ hop_parts_bytes parts.now)) }
{
    let value = hop_value(alloc, si, parts.as_slice())?;
    put_piece(out, HOP, value.as_slice())
}

fn put_association(out: &mut Bytes, kind: u8, rd: &Fixed<8>, spi: &Spi) -> Result<(), OutOfMemory>
    ensures { OnOk result (out.new ≡ out.old ++ (1 ∷ 0 ∷ 12 ∷ kind ∷ rd.now ++ three spi.now)) }
{
    out.push_all(&[1, 0, 12, kind])?;
    out.push_all(rd.bytes())?;
    out.push_u24(spi.number())?;
    Ok(())
}

fn put_part(alloc: Global, out: &mut Bytes, part: &Part) -> Result<(), OutOfMemory>
    requires { PartFits part.now }
    ensures { OnOk result (out.new ≡ out.old ++ part_bytes part.now) }
{
    match part {
        Part::Association { kind, rd, spi } => put_association(out, *kind, rd, spi),
        Part::Hop { si, parts } => put_hop(alloc, out, *si, parts),
        Part::Other { kind, body } => put_piece(out, *kind, body.as_slice()),
    }
}

/// The parts, one behind the other.
fn parts_of(alloc: Global, parts: &[Part]) -> Result<Bytes, OutOfMemory>
    requires { AllByRecursion PartFits parts.now }
    ensures { IfOk result (λ bytes. bytes ≡ parts_bytes parts.now) }
{
    let mut out = Bytes::new(alloc);
    for part in parts {
        put_part(alloc, &mut out, part)?;
    }
    Ok(out)
}

/// The one spelling of an SFP attribute's value (after RFC 9015, section 3.2), without the attribute's flags, kind and
/// length. `decode_sfp` reads it as this attribute again.
pub fn encode_sfp(alloc: Global, sfp: &Sfp) -> Result<Bytes, OutOfMemory>
    requires { SfpFits sfp.now }
    ensures { IfOk result (λ value. IsSfp value sfp.now) }
{
    parts_of(alloc, sfp.parts.as_slice())
}
