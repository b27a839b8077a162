//! Reading a whole header.

ghost use Rattle.std.specs.Prelude.{◌≡◌, ◌≢◌, ℕ, ◌+◌, ◌*◌, ◌≤◌, length, IfOk, IfErr, Ok, Err};
ghost use Rattle.nsh_headers.specs.declared.faults.NshFault.{NshFault};
ghost use Rattle.nsh_headers.specs.Head.{IsHead};
ghost use Rattle.nsh_metadata.specs.Header.{Header, BeginsWith};
ghost use Rattle.nsh_metadata.specs.Refusal.{Refused};
ghost use Rattle.nsh_metadata.specs.Reading.{Reads};

use crate::contexts::Context;
use crate::headers::Nsh;
use crate::items::ItemList;
use crate::surveys::{Survey, walk_items};
use nsh_headers::{NshFault, NshHead, decode_head};
use wire_base::Fixed;

/// The bytes of a header of MD Type 1: the first 8 and 16 of context.
const FIXED_SIZE: usize = 24;

/// Reads the context of MD Type 1 behind a head.
fn with_fixed(head: NshHead, bytes: &[u8]) -> Result<(Nsh, usize), NshFault>
    requires front { IsHead bytes.now head }
    requires md { head.base.md ≡ 1 }
    requires words { head.base.words ≡ 6 }
    ensures { Reads bytes.now result }
{
    if bytes.len() < FIXED_SIZE {
        return Err(NshFault::Short(bytes.len() as u64));
    }
    let context = Context::Fixed16(Fixed::of(&bytes[8..FIXED_SIZE]).unwrap());
    Ok((Nsh { head, context }, FIXED_SIZE))
}

/// Reads the items of MD Type 2 behind a head.
fn with_items(head: NshHead, bytes: &[u8]) -> Result<(Nsh, usize), NshFault>
    requires front { IsHead bytes.now head }
    requires md { head.base.md ≡ 2 }
    requires words { 2 ≤ head.base.words }
    ensures { Reads bytes.now result }
{
    let size = 4 * usize::from(head.base.words);
    let (_, behind) = bytes.split_at(8);
    match walk_items(behind, size - 8) {
        Survey::Whole(count) => {
            let items = ItemList::read(behind.split_at(size - 8).0, count);
            let context = Context::Items(items);
            Ok((Nsh { head, context }, size))
        }
        Survey::Cut => Err(NshFault::Short(bytes.len() as u64)),
        Survey::Past(place) => Err(NshFault::Context(8 + place as u64)),
    }
}

fn read(bytes: &[u8]) -> Result<(Nsh, usize), NshFault>
    ensures { Reads bytes.now result }
{
    let head = decode_head(bytes)?;
    if head.base.md == 1 {
        with_fixed(head, bytes)
    } else {
        with_items(head, bytes)
    }
}

/// Reads the header at the front of the bytes (RFC 8300, section 2), and how many bytes it takes, which is 4
/// times its Length. More bytes may follow.
///
/// The first refusal from the left is told, as soon as its bytes are there: the version, the MD Type, the
/// Length, then the first item that passes the header's end; and else, where there are fewer bytes than the
/// header has, how many were given. Every Next Protocol is read, and unassigned bits and pad bytes are kept.
/// It takes no memory.
pub fn decode_nsh(bytes: &[u8]) -> Result<(Nsh, usize), NshFault>
    ensures found { IfOk result (λ r. BeginsWith bytes.now r.0 r.1) }
    ensures only { (h : Header) (n : ℕ) → BeginsWith bytes.now h n → result ≡ Ok (h, n) }
    ensures refused { IfErr result (Refused bytes.now) }
    ensures each_refusal { (f : NshFault) → Refused bytes.now f → result ≡ Err f }
    // 252 bytes, the most that a header has, are never too few.
    ensures enough { (n : ℕ) → 252 ≤ length bytes.now → result ≢ Err (NshFault.Short n) }
{
    read(bytes)
}
