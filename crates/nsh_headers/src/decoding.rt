//! Reading a head.

ghost use Rattle.std.specs.Prelude.{◌≡◌, ◌+◌, ◌*◌, ◌/◌, ◌%◌, ◌^◌, ◌<◌, ◌≤◌, length, take, slice_index, IfOk, IfErr, IfNone, MatchOption, Ok, Err};
ghost use Rattle.wire_base.specs.Numbers.{big_endian};
ghost use Rattle.nsh_headers.specs.declared.heads.NshHead.{NshHead};
ghost use Rattle.nsh_headers.specs.declared.faults.NshFault.{NshFault};
ghost use Rattle.nsh_headers.specs.Head.{IsHead, IsSized, bit};
ghost use Rattle.nsh_headers.specs.Refusal.{HeadBreaks, HeadRefused, version_in, md_in, words_in};

use crate::faults::NshFault;
use crate::heads::{Base, NshHead, ServicePath};
use wire_base::{Spi, be_u16, be_u24};

/// The bit of a word at a place counted from the right.
fn bit_of(word: u16, place: u32) -> bool
    requires { place < 16 }
    ensures { bit result ≡ word / 2 ^ place % 2 }
{
    (word >> place) & 1 == 1
}

/// The fields of 8 bytes whose version is 0.
fn fields(bytes: &[u8]) -> NshHead
    requires room { 8 ≤ length bytes.now }
    requires version { slice_index bytes.now 0 < 64 }
    ensures { IsHead bytes.now result }
{
    let word = be_u16(bytes);
    NshHead {
        base: Base {
            oam: bit_of(word, 13),
            spare1: bit_of(word, 12),
            ttl: ((word >> 6) & 0x3f) as u8,
            words: (word & 0x3f) as u8,
            spare4: bytes[2] >> 4,
            md: bytes[2] & 0xf,
            next: bytes[3],
        },
        path: ServicePath {
            spi: Spi::of(be_u24(&bytes[4..])).unwrap(),
            si: bytes[7],
        },
    }
}

/// The first of the head's refusals that the bytes show.
fn head_fault(bytes: &[u8]) -> Option<NshFault>
    ensures first { MatchOption result ((f : NshFault) → HeadBreaks bytes.now f → ⊥) (HeadBreaks bytes.now) }
    ensures accepted { IfNone result (2 < length bytes.now
        → (version_in bytes.now ≡ 0) × IsSized (md_in bytes.now) (words_in bytes.now)) }
{
    let first = *bytes.first()?;
    if first >> 6 != 0 {
        return Some(NshFault::Version(first >> 6));
    }
    if bytes.len() < 3 {
        return None;
    }
    let words = bytes[1] & 0x3f;
    match bytes[2] & 0xf {
        1 if words == 6 => None,
        2 if words >= 2 => None,
        1 | 2 => Some(NshFault::Length(words)),
        md => Some(NshFault::MdType(md)),
    }
}

/// Reads the first 8 bytes of a header (RFC 8300, sections 2.2 and 2.3). More bytes may follow.
///
/// The first refusal from the left is told: the version, then the MD Type, then the Length, each as soon as
/// its bytes are there, and else that fewer than 8 bytes were given. Every Next Protocol is read, and
/// unassigned bits are kept.
pub fn decode_head(bytes: &[u8]) -> Result<NshHead, NshFault>
    ensures found { IfOk result (λ h. IsHead bytes.now h × IsSized h.base.md h.base.words) }
    ensures only { (h : NshHead) → IsHead bytes.now h → IsSized h.base.md h.base.words → result ≡ Ok h }
    ensures refused { IfErr result (HeadRefused bytes.now) }
    ensures each_refusal { (f : NshFault) → HeadRefused bytes.now f → result ≡ Err f }
{
    if let Some(fault) = head_fault(bytes) {
        return Err(fault);
    }
    if bytes.len() < 8 {
        return Err(NshFault::Short(bytes.len() as u64));
    }
    Ok(fields(bytes))
}
