//! Writing a whole header.

ghost use Rattle.std.specs.Prelude.{◌≡◌, ◌*◌, ◌<◌, ◌↔◌, length, drop, IsErr, IfOk, OnErr};
ghost use Rattle.nsh_metadata.specs.Header.{BeginsWith};

use crate::headers::Nsh;
use nsh_headers::encode_head;
use wire_base::Full;

/// Writes the header at the front of the slice (RFC 8300, section 2) and answers its bytes, 4 times its
/// Length. It takes no memory.
pub fn encode_nsh(nsh: &Nsh, into: &mut [u8]) -> Result<usize, Full>
    ensures spelled { IfOk result (BeginsWith into.new nsh.now) }
    ensures behind { IfOk result (λ n. drop n into.new ≡ drop n into.old) }
    ensures err { OnErr result (into.new ≡ into.old) }
    ensures full { IsErr result ↔ (length into.old < 4 * nsh.now.head.base.words) }
{
    let context = nsh.context.bytes();
    let size = 8 + context.len();
    if into.len() < size {
        return Err(Full);
    }
    let (front, rest) = into.split_at_mut(8);
    front.copy_from_slice(&encode_head(&nsh.head));
    let (behind, _) = rest.split_at_mut(context.len());
    behind.copy_from_slice(context);
    Ok(size)
}
