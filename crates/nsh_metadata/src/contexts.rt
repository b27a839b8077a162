//! What stands behind the first 8 bytes of a header.

ghost use Rattle.std.specs.Prelude.{◌≡◌, ◌+◌, ◌*◌, ◌/◌, ◌<◌, ◌≤◌, length};
ghost use Rattle.nsh_metadata.specs.Header.{IsContext, context_bytes, md_of};
ghost use Rattle.nsh_metadata.specs.Changes.{has_item, Pushes, cleared};

use crate::items::ItemList;
use wire_base::Fixed;

/// The context of a header.
#[derive(Debug, Drop)]
pub enum Context {
    /// The 16 bytes of MD Type 1 (RFC 8300, section 2.4).
    Fixed16(Fixed<16>),
    /// The items of MD Type 2 (RFC 8300, section 2.5).
    Items(ItemList),
}

/// Why a context takes no further item.
#[derive(Clone, Copy, Debug, PartialEq, Eq)]
pub enum ItemFault {
    /// It is the 16 bytes of MD Type 1, which has no items.
    NoItems,
    /// Its items would pass 244 bytes.
    Full,
}

impl Context {
    /// The bytes of the context, as they stand in a header.
    pub fn bytes(&self) -> &[u8]
        ensures value { result.now ≡ context_bytes self.now }
        ensures spelled { IsContext result.now (md_of self.now) self.now }
        ensures room { length result.now ≤ 244 }
    {
        match self {
            Context::Fixed16(bytes) => bytes.bytes(),
            Context::Items(items) => items.bytes(),
        }
    }

    /// The Length of a header with this context.
    #[tactic(auto, using(crate::proofs::ChangeLemmas::context_words))]
    pub(crate) fn words(&self) -> u8
        ensures value { result ≡ 2 + length (context_bytes self.now) / 4 }
        ensures counts { 4 * result ≡ 8 + length (context_bytes self.now) }
        ensures range { result < 64 }
    {
        2 + (self.bytes().len() / 4) as u8
    }

    /// Whether an item has this class and type. With MD Type 1 there is none.
    pub fn has_item(&self, class: u16, kind: u8) -> bool
        ensures { result ≡ has_item self.now class kind }
    {
        match self {
            Context::Fixed16(_) => false,
            Context::Items(items) => items.has(class, kind),
        }
    }

    /// Adds an item at the end, with a clear unassigned bit and pad bytes 0.
    pub(crate) fn push_item(&mut self, class: u16, kind: u8, body: &[u8]) -> Result<(), ItemFault>
        requires { length body.now < 128 }
        ensures pushed { Pushes self.old class kind body.now result self.new }
        ensures md { md_of self.new ≡ md_of self.old }
    {
        match self {
            Context::Fixed16(_) => Err(ItemFault::NoItems),
            Context::Items(items) => match items.push(class, kind, body) {
                Ok(()) => Ok(()),
                Err(_) => Err(ItemFault::Full),
            },
        }
    }

    /// Removes all items, or sets the 16 bytes to 0.
    pub(crate) fn clear(&mut self)
        ensures { self.new ≡ cleared self.old }
    {
        match self {
            Context::Fixed16(bytes) => *bytes = Fixed::of(&[0; 16]).unwrap(),
            Context::Items(items) => items.clear(),
        }
    }

    /// The same context. It takes no memory.
    pub fn copy(&self) -> Context
        ensures { result ≡ self.now }
    {
        match self {
            Context::Fixed16(bytes) => Context::Fixed16(*bytes),
            Context::Items(items) => Context::Items(items.copy()),
        }
    }
}
