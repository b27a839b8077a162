//! Writing a head.

ghost use Rattle.nsh_headers.specs.Head.{IsHead, HeadFits};

use crate::heads::NshHead;

/// The 8 bytes of a head, with version 0 (RFC 8300, sections 2.2 and 2.3).
///
/// Whether Length fits the MD Type is not asked.
pub fn encode_head(head: &NshHead) -> [u8; 8]
    requires { HeadFits head.now }
    ensures { IsHead result head.now }
{
    let base = head.base;
    let flags = (u16::from(base.oam) << 1) | u16::from(base.spare1);
    let upper = (flags << 6) | u16::from(base.ttl);
    let word = (upper << 6) | u16::from(base.words);
    let spi = head.path.spi.number();
    [
        (word >> 8) as u8,
        (word & 0xff) as u8,
        (base.spare4 << 4) | base.md,
        base.next,
        (spi >> 16) as u8,
        ((spi >> 8) & 0xff) as u8,
        (spi & 0xff) as u8,
        head.path.si,
    ]
}
