//! Copies of attributes and of their parts, and whether two are one.

ghost use Rattle.std.specs.Prelude.{◌≡◌, ◌≢◌, MatchBool, IfOk};

use crate::sfps::{HopPart, Part, Sfp};
use std::alloc::Global;
use wire_base::{Fixed, List, OutOfMemory};

fn copy_rds(alloc: Global, rds: &[Fixed<8>]) -> Result<List<Fixed<8>>, OutOfMemory>
    ensures { IfOk result (λ copy. copy ≡ rds.now) }
{
    let mut copy = List::new(alloc);
    for rd in rds {
        copy.push(*rd)?;
    }
    Ok(copy)
}

fn same_rd(rd: &Fixed<8>, other: &Fixed<8>) -> bool
    ensures { MatchBool result (rd.now ≡ other.now) (rd.now ≢ other.now) }
{
    rd == other
}

fn same_rds(rds: &[Fixed<8>], others: &[Fixed<8>]) -> bool
    ensures { MatchBool result (rds.now ≡ others.now) (rds.now ≢ others.now) }
{
    if rds.len() != others.len() {
        return false;
    }
    for (i, rd) in rds.iter().enumerate() {
        if !same_rd(rd, &others[i]) {
            return false;
        }
    }
    true
}

fn copy_hop_parts(alloc: Global, parts: &[HopPart]) -> Result<List<HopPart>, OutOfMemory>
    ensures { IfOk result (λ copy. copy ≡ parts.now) }
{
    let mut copy = List::new(alloc);
    for part in parts {
        copy.push(part.copy(alloc)?)?;
    }
    Ok(copy)
}

fn same_hop_parts(parts: &[HopPart], others: &[HopPart]) -> bool
    ensures { MatchBool result (parts.now ≡ others.now) (parts.now ≢ others.now) }
{
    if parts.len() != others.len() {
        return false;
    }
    for (i, part) in parts.iter().enumerate() {
        if !part.same(&others[i]) {
            return false;
        }
    }
    true
}

impl HopPart {
    /// The same part.
    pub fn copy(&self, alloc: Global) -> Result<HopPart, OutOfMemory>
        ensures { IfOk result (λ copy. copy ≡ self.now) }
    {
        match self {
            HopPart::Sft { kind, rds } => Ok(HopPart::Sft {
                kind: *kind,
                rds: copy_rds(alloc, rds.as_slice())?,
            }),
            HopPart::Other { kind, body } => Ok(HopPart::Other {
                kind: *kind,
                body: body.copy(alloc)?,
            }),
        }
    }

    /// Whether the two are one part: of one kind, with the same value.
    pub fn same(&self, other: &HopPart) -> bool
        ensures { MatchBool result (self.now ≡ other.now) (self.now ≢ other.now) }
    {
        match self {
            HopPart::Sft { kind, rds } => {
                let HopPart::Sft {
                    kind: other_kind,
                    rds: other_rds,
                } = other
                else {
                    return false;
                };
                if kind != other_kind {
                    return false;
                }
                same_rds(rds.as_slice(), other_rds.as_slice())
            }
            HopPart::Other { kind, body } => {
                let HopPart::Other {
                    kind: other_kind,
                    body: other_body,
                } = other
                else {
                    return false;
                };
                if kind != other_kind {
                    return false;
                }
                body.same(other_body)
            }
        }
    }
}

fn copy_parts(alloc: Global, parts: &[Part]) -> Result<List<Part>, OutOfMemory>
    ensures { IfOk result (λ copy. copy ≡ parts.now) }
{
    let mut copy = List::new(alloc);
    for part in parts {
        copy.push(part.copy(alloc)?)?;
    }
    Ok(copy)
}

fn same_parts(parts: &[Part], others: &[Part]) -> bool
    ensures { MatchBool result (parts.now ≡ others.now) (parts.now ≢ others.now) }
{
    if parts.len() != others.len() {
        return false;
    }
    for (i, part) in parts.iter().enumerate() {
        if !part.same(&others[i]) {
            return false;
        }
    }
    true
}

impl Part {
    /// The same part.
    pub fn copy(&self, alloc: Global) -> Result<Part, OutOfMemory>
        ensures { IfOk result (λ copy. copy ≡ self.now) }
    {
        match self {
            Part::Association { kind, rd, spi } => Ok(Part::Association {
                kind: *kind,
                rd: *rd,
                spi: *spi,
            }),
            Part::Hop { si, parts } => Ok(Part::Hop {
                si: *si,
                parts: copy_hop_parts(alloc, parts.as_slice())?,
            }),
            Part::Other { kind, body } => Ok(Part::Other {
                kind: *kind,
                body: body.copy(alloc)?,
            }),
        }
    }

    /// Whether the two are one part: of one kind, with the same value.
    pub fn same(&self, other: &Part) -> bool
        ensures { MatchBool result (self.now ≡ other.now) (self.now ≢ other.now) }
    {
        match self {
            Part::Association { kind, rd, spi } => {
                let Part::Association {
                    kind: other_kind,
                    rd: other_rd,
                    spi: other_spi,
                } = other
                else {
                    return false;
                };
                if kind != other_kind {
                    return false;
                }
                if rd != other_rd {
                    return false;
                }
                if spi != other_spi {
                    return false;
                }
                true
            }
            Part::Hop { si, parts } => {
                let Part::Hop {
                    si: other_si,
                    parts: other_parts,
                } = other
                else {
                    return false;
                };
                if si != other_si {
                    return false;
                }
                same_hop_parts(parts.as_slice(), other_parts.as_slice())
            }
            Part::Other { kind, body } => {
                let Part::Other {
                    kind: other_kind,
                    body: other_body,
                } = other
                else {
                    return false;
                };
                if kind != other_kind {
                    return false;
                }
                body.same(other_body)
            }
        }
    }
}

impl Sfp {
    /// The same attribute.
    pub fn copy(&self, alloc: Global) -> Result<Sfp, OutOfMemory>
        ensures { IfOk result (λ copy. copy ≡ self.now) }
    {
        let parts = copy_parts(alloc, self.parts.as_slice())?;
        Ok(Sfp { parts })
    }

    /// Whether the two are one attribute: the same parts, in the same order.
    pub fn same(&self, other: &Sfp) -> bool
        ensures { MatchBool result (self.now ≡ other.now) (self.now ≢ other.now) }
    {
        same_parts(self.parts.as_slice(), other.parts.as_slice())
    }
}
