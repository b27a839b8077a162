//! A whole header.

ghost use Rattle.std.specs.Prelude.{◌≡◌, ◌<◌, length};
ghost use Rattle.nsh_metadata.specs.Changes.{PushesIn, cleared, with_context, with_index};

use crate::contexts::{Context, ItemFault};
use nsh_headers::NshHead;
use std::marker::Model;

/// A header that has a spelling: its fields are in their ranges, its MD Type is that of its context, and its
/// Length counts its bytes.
#[derive(Debug, Drop)]
pub struct Nsh {
    pub head: NshHead,
    pub context: Context,
}

impl Model for Nsh {
    ghost use Rattle.nsh_metadata.specs.Header.{Header, HasSpelling};

    ghost Value = { Header };

    ghost view = { λ h. record { head = h.head; context = h.context } };

    ghost invariant = { λ h. HasSpelling h.head h.context };
}

impl Nsh {
    /// Sets the service index.
    pub fn set_si(&mut self, si: u8)
        ensures { self.new ≡ with_index self.old si }
    {
        self.head.path.si = si;
    }

    /// Adds an item at the end of the context, with a clear unassigned bit and pad bytes 0.
    pub fn push_item(&mut self, class: u16, kind: u8, body: &[u8]) -> Result<(), ItemFault>
        requires { length body.now < 128 }
        ensures { PushesIn self.old class kind body.now result self.new }
    {
        self.context.push_item(class, kind, body)?;
        self.head.base.words = self.context.words();
        Ok(())
    }

    /// Removes all items of the context, or sets its 16 bytes to 0.
    pub fn clear_context(&mut self)
        ensures { self.new ≡ with_context self.old (cleared self.old.context) }
    {
        self.context.clear();
        self.head.base.words = self.context.words();
    }

    /// The same header. It takes no memory.
    pub fn copy(&self) -> Nsh
        ensures { result ≡ self.now }
    {
        Nsh {
            head: self.head,
            context: self.context.copy(),
        }
    }
}
