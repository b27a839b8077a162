//! Edits of a header where it lies (RFC 8300, section 2.2 and 2.3).

ghost use Rattle.std.specs.Prelude.{◌≡◌, ◌<◌, ◌≤◌, length, slice_set};
ghost use Rattle.nsh_headers.specs.declared.heads.NshHead.{NshHead};
ghost use Rattle.nsh_headers.specs.Head.{IsHead};
ghost use Rattle.nsh_headers.specs.Edit.{TtlBecomes, ttl_in, lowered, with_length, with_ttl, with_words, with_si};

use wire_base::{be_u16, put_u16};

/// Sets the TTL of a header. Every other bit stays.
pub fn set_ttl(bytes: &mut [u8], ttl: u8)
    requires room { 8 ≤ length bytes.old }
    requires range { ttl < 64 }
    ensures edit { TtlBecomes bytes.old bytes.new ttl }
    ensures head { (h : NshHead) → IsHead bytes.old h → IsHead bytes.new (with_ttl h ttl) }
{
    let word = be_u16(bytes);
    let upper = (word >> 12 << 6) | u16::from(ttl);
    put_u16(bytes, (upper << 6) | (word & 0x3f));
}

/// Sets the Length of a header, in words of 4 bytes. Every other bit stays.
pub fn set_words(bytes: &mut [u8], words: u8)
    requires room { 8 ≤ length bytes.old }
    requires range { words < 64 }
    ensures edit { bytes.new ≡ with_length bytes.old words }
    ensures head { (h : NshHead) → IsHead bytes.old h → IsHead bytes.new (with_words h words) }
{
    bytes[1] = (bytes[1] >> 6 << 6) | words;
}

/// Sets the service index of a header, which is its eighth byte. Every other byte stays.
pub fn set_si(bytes: &mut [u8], si: u8)
    requires { 8 ≤ length bytes.old }
    ensures edit { bytes.new ≡ slice_set bytes.old 7 si }
    ensures head { (h : NshHead) → IsHead bytes.old h → IsHead bytes.new (with_si h si) }
{
    bytes[7] = si;
}

/// The TTL of a header.
fn ttl_of(bytes: &[u8]) -> u8
    requires { 8 ≤ length bytes.now }
    ensures { result ≡ ttl_in bytes.now }
{
    ((be_u16(bytes) >> 6) & 0x3f) as u8
}

/// The TTL after one hop.
fn one_lower(ttl: u8) -> u8
    requires { ttl < 64 }
    ensures same { result ≡ lowered ttl }
    ensures range { result < 64 }
{
    if ttl == 0 { 63 } else { ttl - 1 }
}

/// Lowers the TTL of a header by 1, from 0 to 63 (RFC 8300, section 2.2), and answers the new one. Every
/// other bit stays.
pub fn lower_ttl(bytes: &mut [u8]) -> u8
    requires { 8 ≤ length bytes.old }
    ensures answer { result ≡ lowered (ttl_in bytes.old) }
    ensures edit { TtlBecomes bytes.old bytes.new result }
    ensures head { (h : NshHead) → IsHead bytes.old h → IsHead bytes.new (with_ttl h result) }
    ensures head_answer { (h : NshHead) → IsHead bytes.old h → result ≡ lowered h.base.ttl }
{
    let lower = one_lower(ttl_of(bytes));
    set_ttl(bytes, lower);
    lower
}
