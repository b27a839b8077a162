//! The messages that a feed has.

ghost use Rattle.std.specs.Prelude.{◌≡◌, ◌+◌, ◌≤◌, ℕ, List as Sequence, length, OnOk, IfOk};
ghost use Rattle.bgp_messages.specs.declared.messages.Message.{Message as Spoken};
ghost use Rattle.session_machine.specs.Feeds.{Follows, Drains};

use bgp_messages::{BgpFeed, Message, NextFault, Refusal};
use std::alloc::Global;
use wire_base::{List, OutOfMemory};

/// The messages that a feed had, and what is refused behind them.
#[derive(Debug, Drop)]
pub(crate) struct Reading {
    pub(crate) messages: List<Message>,
    pub(crate) refusal: Option<Refusal>,
}

/// Takes every message out of a feed.
pub(crate) fn read_all(alloc: Global, feed: &mut BgpFeed) -> Result<Reading, OutOfMemory>
    ensures history { (taken : Sequence ℕ) (given : Sequence Spoken) → Follows feed.old taken given
        → IfOk result (λ reading. Drains feed.new taken given reading) }
    ensures count { feed.new.place + length feed.new.rest ≡ feed.old.place + length feed.old.rest }
{
    let mut messages = List::new(alloc);
    'messages: loop {
        match feed.next() {
            Ok(Some(message)) => messages.push(message)?,
            Ok(None) => {
                return Ok(Reading {
                    messages,
                    refusal: None,
                });
            }
            Err(NextFault::Bad(refusal)) => {
                return Ok(Reading {
                    messages,
                    refusal: Some(refusal),
                });
            }
            Err(NextFault::OutOfMemory) => return Err(OutOfMemory),
        }
    }
}
