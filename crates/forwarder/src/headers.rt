//! The header of a frame where it begins.

ghost use Rattle.std.specs.Prelude.{◌≡◌, ◌<◌, false, length};
ghost use Rattle.nsh_metadata.specs.Header.{BeginsWith, Header};
ghost use Rattle.classifier.specs.Rules.{IsRuleContext};
ghost use Rattle.classifier.specs.Stations.{first_header};
ghost use Rattle.forwarder.specs.Walks.{aged};

use nsh_headers::{Base, NshHead, ServicePath, lower_ttl};
use nsh_metadata::{Context, Nsh, encode_nsh};
use wire_base::Spi;

/// The Next Protocol of Ethernet (RFC 8300, section 2.2).
const ETHERNET: u8 = 3;

/// The first 8 bytes of a header of a rule's path, with this MD Type and Length.
fn head_of(spi: Spi, si: u8, ttl: u8, md: u8, words: u8) -> NshHead
    ensures { result ≡ record { base = record { oam = false; spare1 = false; ttl = ttl; words = words; spare4 = 0; md = md; next = 3 }; path = record { spi = spi; si = si } } }
{
    NshHead {
        base: Base {
            oam: false,
            spare1: false,
            ttl,
            words,
            spare4: 0,
            md,
            next: ETHERNET,
        },
        path: ServicePath { spi, si },
    }
}

/// The header of a rule's path.
pub(crate) fn header_of(spi: Spi, si: u8, ttl: u8, context: Context) -> Nsh
    requires ttl { ttl < 64 }
    requires context { IsRuleContext context }
    ensures { result ≡ first_header spi si ttl context }
{
    match context {
        Context::Fixed16(bytes) => Nsh {
            head: head_of(spi, si, ttl, 1, 6),
            context: Context::Fixed16(bytes),
        },
        Context::Items(items) => Nsh {
            head: head_of(spi, si, ttl, 2, 2),
            context: Context::Items(items),
        },
    }
}

/// Writes a header at the front of the buffer, and answers its bytes.
pub(crate) fn put_header(nsh: &Nsh, header: &mut [u8]) -> usize
    requires { length header.old ≡ 252 }
    ensures { BeginsWith header.new nsh.now result }
{
    let _head = nsh.head;
    encode_nsh(nsh, header).unwrap()
}

/// Lowers the TTL of the header that the first `size` bytes are, and answers the new one.
pub(crate) fn age(header: &mut [u8], size: usize) -> u8
    requires { (h : Header) × BeginsWith header.old h size }
    ensures answer { (h : Header) → BeginsWith header.old h size → result ≡ (aged h).head.base.ttl }
    ensures spelled { (h : Header) → BeginsWith header.old h size → BeginsWith header.new (aged h) size }
{
    lower_ttl(header)
}
