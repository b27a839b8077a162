ghost use Rattle.std.specs.Prelude.{◌≡◌, ◌+◌, ◌<◌, ◌≤◌, ◌^◌, ℕ, List, [], length, None};
ghost use Rattle.bgp_messages.specs.MessageSteps.{MessageGives};

use crate::contents::{ContentFault, read_content};
use crate::headers::{HEADER, HeadStep, head_step};
use crate::messages::Message;
use crate::refusals::{Fault, Refusal};
use std::alloc::Global;
use std::marker::Model;
use wire_base::{FrontBuffer, OutOfMemory};

/// Why no message is given.
#[derive(Debug, Drop)]
pub enum NextFault {
    /// The stream is no stream of messages.
    Bad(Refusal),
    OutOfMemory,
}

/// What the bytes at hand begin with.
pub(crate) enum MessageStep {
    /// No whole message, and nothing that is refused.
    Wait,
    Refused(Fault),
    /// A message of this length.
    Whole(Message, u16),
    OutOfMemory,
}

/// Reads the message at the front of the bytes.
pub(crate) fn message_step(alloc: Global, bytes: &[u8]) -> MessageStep
    ensures { MessageGives bytes.now result }
{
    let (kind, length) = match head_step(bytes) {
        HeadStep::Wait => return MessageStep::Wait,
        HeadStep::Refused(fault) => return MessageStep::Refused(fault),
        HeadStep::Whole(kind, length) => (kind, length),
    };
    let content = &bytes[usize::from(HEADER)..usize::from(length)];
    match read_content(alloc, kind, content) {
        Ok(message) => MessageStep::Whole(message, length),
        Err(ContentFault::Refused(fault)) => MessageStep::Refused(fault),
        Err(ContentFault::OutOfMemory) => MessageStep::OutOfMemory,
    }
}

/// Why a feed has stopped.
#[derive(Clone, Copy, Debug)]
enum Halt {
    Refused(Fault),
    OutOfMemory,
}

impl Halt {
    ghost use Rattle.bgp_messages.specs.Halts.{stop_at, FitsAt};
    ghost use Rattle.bgp_messages.specs.Calls.{Answers};

    /// What is answered after `used` bytes of the stream.
    fn fault(self, used: u64) -> NextFault
        requires { FitsAt used self }
        ensures { Answers (stop_at used self) result }
    {
        match self {
            Halt::Refused(fault) => NextFault::Bad(fault.refusal(used)),
            Halt::OutOfMemory => NextFault::OutOfMemory,
        }
    }
}

/// A stream of messages that comes in pieces.
///
/// Clauses see the bytes that are not used up, how many were used up, and why the feed has stopped, where it has.
#[derive(Debug, Drop)]
pub struct BgpFeed {
    alloc: Global,
    /// The bytes of the stream that are not used up.
    buffer: FrontBuffer,
    /// How many bytes of the stream are used.
    place: u64,
    halt: Option<Halt>,
}

impl Model for BgpFeed {
    ghost use Rattle.std.specs.Prelude.{ℕ, ◌+◌, ◌<◌, ◌^◌, length};
    ghost use Rattle.bgp_messages.specs.Kept.{Kept};

    ghost Value = { Kept };

    ghost use Rattle.bgp_messages.specs.Halts.{stop_of, HaltFits};

    ghost view = { λ f. record { rest = f.buffer.rest; place = f.place; stop = stop_of f.place f.halt } };

    ghost invariant = { λ f. (f.place + length f.buffer.rest < 2 ^ 64) × HaltFits f.place f.halt };
}

impl BgpFeed {
    ghost use Rattle.std.specs.Prelude.{◌≡◌, ◌+◌, ◌<◌, ◌≤◌, ◌^◌, ℕ, List, [], length, None, OnOk, OnErr, IfSome, IsSome, IfOk};
    ghost use Rattle.bgp_messages.specs.Calls.{Pushes, PushFails, First, Again, Exact};
    ghost use Rattle.bgp_messages.specs.declared.messages.Message.{Message};
    ghost use Rattle.bgp_messages.specs.Streams.{Stands, Next, taken_at};

    /// A feed that has taken nothing.
    pub fn new(alloc: Global) -> BgpFeed
        ensures value { result ≡ record { rest = []; place = 0; stop = None } }
        ensures history { Stands result [] [] }
    {
        BgpFeed {
            alloc,
            buffer: FrontBuffer::new(alloc),
            place: 0,
            halt: None,
        }
    }

    /// Takes the next piece of the stream. After a refusal it takes nothing. Where there is no memory for the piece, the feed
    /// has failed.
    pub fn push(&mut self, piece: &[u8]) -> Result<(), OutOfMemory>
        requires { self.old.place + length self.old.rest + length piece.now < 2 ^ 64 }
        ensures ok { OnOk result (Pushes self.old piece.now self.new) }
        ensures err { OnErr result (PushFails self.old self.new) }
        ensures history { (taken : List ℕ) (given : List Message) → Stands self.old taken given
            → OnOk result (Stands self.new (taken_at self.old.stop taken piece.now) given) }
        ensures count { self.new.place + length self.new.rest ≤ self.old.place + length self.old.rest + length piece.now }
    {
        match self.halt {
            Some(Halt::Refused(_)) => return Ok(()),
            Some(Halt::OutOfMemory) => return Err(OutOfMemory),
            None => {}
        }
        match self.buffer.push_all(piece) {
            Ok(()) => Ok(()),
            Err(fault) => {
                self.halt = Some(Halt::OutOfMemory);
                Err(fault)
            }
        }
    }

    /// The bytes that are not used up.
    pub fn rest(&self) -> &[u8]
        ensures { result.now ≡ self.now.rest }
    {
        self.buffer.rest()
    }

    /// How many bytes of the stream are used up.
    pub fn place(&self) -> u64
        ensures value { result ≡ self.now.place }
        ensures range { self.now.place + length self.now.rest < 2 ^ 64 }
    {
        self.place
    }

    /// The next message of the stream; `None` is "not yet".
    pub fn next(&mut self) -> Result<Option<Message>, NextFault>
        ensures first { self.old.stop ≡ None → First self.old self.new result }
        ensures exact { self.old.stop ≡ None → Exact self.old result }
        ensures again { IfSome self.old.stop (λ stop. Again stop result × (self.new ≡ self.old)) }
        ensures history { (taken : List ℕ) (given : List Message) → Stands self.old taken given → Next result self.new taken given }
        ensures count { self.new.place + length self.new.rest ≡ self.old.place + length self.old.rest }
        ensures falls { IfOk result (λ m. IsSome m → length self.new.rest < length self.old.rest) }
    {
        if let Some(halt) = self.halt {
            return Err(halt.fault(self.place));
        }
        match message_step(self.alloc, self.buffer.rest()) {
            MessageStep::Wait => Ok(None),
            MessageStep::Whole(message, length) => {
                self.buffer.pass(usize::from(length));
                self.place += u64::from(length);
                Ok(Some(message))
            }
            MessageStep::Refused(fault) => {
                self.halt = Some(Halt::Refused(fault));
                Err(NextFault::Bad(fault.refusal(self.place)))
            }
            MessageStep::OutOfMemory => {
                self.halt = Some(Halt::OutOfMemory);
                Err(NextFault::OutOfMemory)
            }
        }
    }
}
