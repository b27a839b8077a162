//! Context items of MD Type 2 (RFC 8300, section 2.5.1).

ghost use Rattle.std.specs.Prelude.{◌≡◌, List, ◌+◌, ◌-◌, ◌*◌, ◌/◌, ◌%◌, ◌<◌, ◌≤◌, ◌↔◌, ◌∷◌, [], ◌++◌, length, take, drop, slice_index, slice_get, IsErr, IsTrue, OnOk, OnErr, Some};
ghost use Rattle.nsh_metadata.specs.Item.{Item, IsItem, pad_len, item_len, item_bytes, items_bytes, items_in, item_at, item_size, new_item, AreItems, HoldsItems};
ghost use Rattle.std.specs.List.{list_any};
ghost use Rattle.nsh_metadata.specs.Changes.{is_of};
ghost use Rattle.nsh_metadata.specs.Shown.{shown};

use std::marker::Model;
use wire_base::{Full, be_u16};

/// The most bytes that the items of one header take: 63 words without the first 2.
const ROOM: usize = 244;

/// One context item, as it stands in a header.
#[derive(Clone, Copy, Debug, PartialEq, Eq)]
pub struct ItemRef<'a> {
    /// The metadata class.
    pub class: u16,
    /// The type within the class.
    pub kind: u8,
    /// The unassigned bit before the length.
    pub spare: bool,
    /// The body, 0 to 127 bytes.
    pub body: &'a [u8],
    /// The bytes behind the body that fill its last word, 0 to 3, of any content.
    pub pad: &'a [u8],
}

/// The bytes of an item whose body has `len` bytes: its 4 first, the body, and the pad.
pub(crate) fn padded_size(len: usize) -> usize
    requires { len < 128 }
    ensures { result ≡ item_len len }
{
    4 + len + (4 - len % 4) % 4
}

/// The bytes of the item at the front, by its length field.
pub(crate) fn size_at(rest: &[u8]) -> usize
    requires { 4 ≤ length rest.now }
    ensures size { result ≡ item_size rest.now }
    ensures least { 4 ≤ result }
{
    padded_size(usize::from(rest[3] & 0x7f))
}

/// The item at the front of whole items.
fn item_ref(rest: &[u8]) -> ItemRef<'_>
    requires head { 4 ≤ length rest.now }
    requires whole { item_size rest.now ≤ length rest.now }
    ensures { shown result ≡ item_at rest.now }
{
    let len = usize::from(rest[3] & 0x7f);
    let size = padded_size(len);
    ItemRef {
        class: be_u16(rest),
        kind: rest[2],
        spare: rest[3] >= 0x80,
        body: &rest[4..4 + len],
        pad: &rest[4 + len..size],
    }
}

/// Writes an item with a clear unassigned bit and pad bytes 0.
pub(crate) fn write_item(into: &mut [u8], class: u16, kind: u8, body: &[u8])
    requires len { length body.now < 128 }
    requires room { length into.old ≡ item_len (length body.now) }
    ensures { into.new ≡ item_bytes (new_item class kind body.now) }
{
    let (front, rest) = into.split_at_mut(4);
    front.copy_from_slice(&[
        (class >> 8) as u8,
        (class & 0xff) as u8,
        kind,
        body.len() as u8,
    ]);
    let (content, pad) = rest.split_at_mut(body.len());
    content.copy_from_slice(body);
    pad.fill(0);
}

/// Whether the item at the front has this class and type.
fn is_at(rest: &[u8], class: u16, kind: u8) -> bool
    requires { 4 ≤ length rest.now }
    ensures { result ≡ is_of class kind (item_at rest.now) }
{
    be_u16(rest) == class && rest[2] == kind
}

/// Whether one of the items that the bytes spell, all of the bytes, has this class and type.
pub(crate) fn is_among(bytes: &[u8], class: u16, kind: u8) -> bool
    requires { (items : List Item) × AreItems items × (bytes.now ≡ items_bytes items) }
    ensures { (items : List Item) → AreItems items → bytes.now ≡ items_bytes items → result ≡ list_any (is_of class kind) items }
{
    let mut rest = bytes;
    while !rest.is_empty() {
        if is_at(rest, class, kind) {
            return true;
        }
        rest = rest.split_at(size_at(rest)).1;
    }
    false
}

/// The context items of one header, at most 244 bytes of them, which lie in the value itself.
#[derive(Debug, Drop)]
pub struct ItemList {
    held: [u8; ROOM],
    len: usize,
    count: usize,
}

impl Model for ItemList {
    ghost use Rattle.std.specs.Prelude.{◌≤◌, List};
    ghost use Rattle.nsh_metadata.specs.Item.{Item, items_in, HoldsItems};

    ghost Value = { List Item };

    ghost view = { λ l. items_in l.count l.held };

    ghost invariant = { λ l. (l.len ≤ 244) × HoldsItems l.count l.len l.held };
}

impl ItemList {
    /// No items.
    pub fn new() -> ItemList
        ensures { result ≡ [] }
    {
        ItemList {
            held: [0; ROOM],
            len: 0,
            count: 0,
        }
    }

    /// How many items there are.
    pub fn len(&self) -> usize
        ensures { result ≡ length self.now }
    {
        self.count
    }

    /// Whether there are none.
    pub fn is_empty(&self) -> bool
        ensures { IsTrue result ↔ (self.now ≡ []) }
    {
        self.count == 0
    }

    /// The item at a place, counted from 0.
    pub fn item(&self, i: usize) -> ItemRef<'_>
        requires { i < length self.now }
        ensures item { slice_get self.now i ≡ Some (shown result) }
        ensures fits { IsItem (shown result) }
    {
        let mut rest = self.bytes();
        for _ in 0..i {
            rest = rest.split_at(size_at(rest)).1;
        }
        item_ref(rest)
    }

    /// Whether an item has this class and type.
    pub fn has(&self, class: u16, kind: u8) -> bool
        ensures { result ≡ list_any (is_of class kind) self.now }
    {
        is_among(self.bytes(), class, kind)
    }

    /// Adds an item at the end, with a clear unassigned bit and pad bytes 0.
    pub fn push(&mut self, class: u16, kind: u8, body: &[u8]) -> Result<(), Full>
        requires { length body.now < 128 }
        ensures ok { OnOk result (self.new ≡ self.old ++ new_item class kind body.now ∷ []) }
        ensures err { OnErr result (self.new ≡ self.old) }
        ensures full { IsErr result ↔ (244 < length (items_bytes self.old) + item_len (length body.now)) }
    {
        let size = padded_size(body.len());
        if size > ROOM - self.len {
            return Err(Full);
        }
        let end = self.len + size;
        write_item(&mut self.held[self.len..end], class, kind, body);
        self.len = end;
        self.count += 1;
        Ok(())
    }

    /// Removes all items.
    pub fn clear(&mut self)
        ensures { self.new ≡ [] }
    {
        self.len = 0;
        self.count = 0;
    }

    /// The items that the bytes spell, all of the bytes.
    pub(crate) fn read(bytes: &[u8], count: usize) -> ItemList
        requires room { length bytes.now ≤ 244 }
        requires spelled { HoldsItems count (length bytes.now) bytes.now }
        ensures { result ≡ items_in count bytes.now }
    {
        let mut held = [0; ROOM];
        held[..bytes.len()].copy_from_slice(bytes);
        ItemList {
            held,
            len: bytes.len(),
            count,
        }
    }

    /// The same items. It takes no memory.
    pub fn copy(&self) -> ItemList
        ensures { result ≡ self.now }
    {
        ItemList {
            held: self.held,
            len: self.len,
            count: self.count,
        }
    }

    /// The bytes of all items, as they stand in a header.
    pub fn bytes(&self) -> &[u8]
        ensures value { result.now ≡ items_bytes self.now }
        ensures items { AreItems self.now }
        ensures room { length result.now ≤ 244 }
    {
        &self.held[..self.len]
    }
}
