//! Changes of the context of a header where it lies. No other bit changes.

ghost use Rattle.std.specs.Prelude.{◌≡◌, ℕ, ◌==◌, ◌<◌, ◌≤◌, length, replicate};
ghost use Rattle.nsh_headers.specs.Refusal.{md_in};
ghost use Rattle.nsh_metadata.specs.Header.{Header, IsNsh, BeginsWith};
ghost use Rattle.nsh_metadata.specs.Changes.{has_item, cleared, with_context, PushesAt};

use crate::contexts::ItemFault;
use crate::items::{is_among, padded_size, write_item};
use nsh_headers::set_words;

/// The most bytes of a header: 63 words.
const HEADER_LIMIT: usize = 252;

/// Whether the MD Type is 2, whose context is items.
fn bears_items(header: &[u8]) -> bool
    requires { 8 ≤ length header.now }
    ensures { result ≡ (md_in header.now == 2) }
{
    header[2] & 0x0f == 2
}

/// Whether an item of a header, which is all of the bytes, has this class and type. With MD Type 1 there is
/// none.
pub fn has_item(header: &[u8], class: u16, kind: u8) -> bool
    requires { (h : Header) × IsNsh header.now h }
    ensures { (h : Header) → IsNsh header.now h → result ≡ has_item h.context class kind }
{
    if !bears_items(header) {
        return false;
    }
    is_among(&header[8..], class, kind)
}

/// Adds an item behind the first `size` bytes, which are a header, with a clear unassigned bit and pad bytes
/// 0, and answers the bytes of the header that it makes.
pub fn push_item(
    header: &mut [u8],
    size: usize,
    class: u16,
    kind: u8,
    body: &[u8],
) -> Result<usize, ItemFault>
    requires spelled { (h : Header) × BeginsWith header.old h size }
    requires room { 252 ≤ length header.old }
    requires len { length body.now < 128 }
    ensures { (h : Header) → BeginsWith header.old h size → PushesAt header.old h class kind body.now result header.new }
{
    if !bears_items(header) {
        return Err(ItemFault::NoItems);
    }
    let end = size + padded_size(body.len());
    if end > HEADER_LIMIT {
        return Err(ItemFault::Full);
    }
    write_item(&mut header[size..end], class, kind, body);
    set_words(header, (end / 4) as u8);
    Ok(end)
}

/// Sets all bytes to 0.
fn zero(bytes: &mut [u8])
    ensures { bytes.new ≡ replicate (length bytes.old) 0 }
{
    bytes.fill(0);
}

/// Removes all items of a header, or sets its 16 bytes of context to 0, and answers the bytes of the header
/// that it makes.
pub fn clear_context(header: &mut [u8]) -> usize
    requires { (h : Header) × (size : ℕ) × BeginsWith header.old h size }
    ensures { (h : Header) (size : ℕ) → BeginsWith header.old h size → BeginsWith header.new (with_context h (cleared h.context)) result }
{
    if bears_items(header) {
        set_words(header, 2);
        return 8;
    }
    zero(&mut header[8..24]);
    24
}
