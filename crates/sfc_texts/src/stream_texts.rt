//! The lines of a stream of BGP messages that comes in pieces.

ghost use Rattle.std.specs.Prelude.{IfOk};
ghost use Rattle.sfc_texts.specs.BgpText.{ShowsBgp};

use crate::attribute_names::AttributeNames;
use crate::bgp_text::{Step, print_rest, show_next};
use bgp_messages::BgpFeed;
use std::alloc::Global;
use std::marker::Model;
use wire_base::{Bytes, OutOfMemory};

/// How far the lines of a stream are.
#[derive(Clone, Copy, Debug, PartialEq, Eq)]
pub(crate) enum Stage {
    /// More may follow.
    Open,
    /// A refusal was shown, and nothing follows.
    Over,
    /// There was no memory.
    Failed,
}

/// The lines that show a stream of BGP messages, as `bgp_lines` gives them, of a stream that comes in pieces.
///
/// Clauses see the bytes that no line shows yet, how many bytes were before them, and how far the lines are. `Stands`
/// says which bytes were taken and which lines were given.
#[derive(Debug, Drop)]
pub struct StreamLines {
    alloc: Global,
    names: AttributeNames,
    feed: BgpFeed,
    stage: Stage,
}

impl Model for StreamLines {
    ghost use Rattle.std.specs.Prelude.{◌≡◌, None};
    ghost use Rattle.sfc_texts.specs.declared.stream_texts.Stage.TheVariants.{Open};
    ghost use Rattle.sfc_texts.specs.Showings.{Showing};

    ghost Value = { Showing };

    ghost view = { λ l. record { rest = l.feed.rest; place = l.feed.place; stage = l.stage } };

    ghost invariant = { λ l. l.stage ≡ Open → l.feed.stop ≡ None };
}

impl StreamLines {
    ghost use Rattle.std.specs.Prelude.{◌≡◌, ◌+◌, ◌<◌, ◌≤◌, ◌^◌, ℕ, List, [], ◌++◌, length, IfOk, OnOk, OnErr, MatchBool, IsErr};
    ghost use Rattle.sfc_texts.specs.Showings.{Stands, Awaits};
    ghost use Rattle.sfc_texts.specs.BgpText.{ShowsBgp};

    /// The lines of a stream of which nothing was taken.
    pub fn new(alloc: Global) -> StreamLines
        ensures empty { result ≡ record { rest = []; place = 0; stage = Stage.Open } }
        ensures begins { Stands result [] [] }
    {
        StreamLines {
            alloc,
            names: AttributeNames::new(),
            feed: BgpFeed::new(alloc),
            stage: Stage::Open,
        }
    }

    /// Takes the next piece of the stream. Behind a refusal it is let go. After want of memory every call answers that.
    pub fn push(&mut self, piece: &[u8]) -> Result<(), OutOfMemory>
        requires { self.old.place + length self.old.rest + length piece.now < 2 ^ 64 }
        ensures history { (taken out : List ℕ) → Stands self.old taken out → OnOk result (Stands self.new (taken ++ piece.now) out) }
        ensures count { self.new.place + length self.new.rest ≤ self.old.place + length self.old.rest + length piece.now }
        ensures failed { OnErr result (self.new.stage ≡ Stage.Failed) }
        ensures again { self.old.stage ≡ Stage.Failed → IsErr result }
    {
        match self.stage {
            Stage::Open => match self.feed.push(piece) {
                Ok(()) => Ok(()),
                Err(fault) => {
                    self.stage = Stage::Failed;
                    Err(fault)
                }
            },
            Stage::Over => Ok(()),
            Stage::Failed => Err(OutOfMemory),
        }
    }

    /// Appends the lines of the next message, and answers whether there were any: where it answers no, the rest awaits more
    /// bytes, or the line of a refusal was appended and nothing follows.
    pub fn next(&mut self, out: &mut Bytes) -> Result<bool, OutOfMemory>
        ensures history { (taken front : List ℕ) → Stands self.old taken (front ++ out.old) → OnOk result (Stands self.new taken (front ++ out.new)) }
        ensures answer { IfOk result (λ more. MatchBool more (length self.new.rest < length self.old.rest) (Awaits self.new)) }
        ensures count { self.new.place + length self.new.rest ≡ self.old.place + length self.old.rest }
        ensures failed { OnErr result (self.new.stage ≡ Stage.Failed) }
        ensures again { self.old.stage ≡ Stage.Failed → IsErr result }
    {
        match self.stage {
            Stage::Open => self.next_open(out),
            Stage::Over => Ok(false),
            Stage::Failed => Err(OutOfMemory),
        }
    }

    /// The same, of lines that are open.
    fn next_open(&mut self, out: &mut Bytes) -> Result<bool, OutOfMemory>
        requires { self.old.stage ≡ Stage.Open }
        ensures history { (taken front : List ℕ) → Stands self.old taken (front ++ out.old) → OnOk result (Stands self.new taken (front ++ out.new)) }
        ensures answer { IfOk result (λ more. MatchBool more (length self.new.rest < length self.old.rest) (Awaits self.new)) }
        ensures count { self.new.place + length self.new.rest ≡ self.old.place + length self.old.rest }
        ensures failed { OnErr result (self.new.stage ≡ Stage.Failed) }
    {
        match show_next(self.alloc, &self.names, &mut self.feed, out) {
            Ok(Step::Message) => Ok(true),
            Ok(Step::Waits) => Ok(false),
            Ok(Step::Over) => {
                self.stage = Stage::Over;
                Ok(false)
            }
            Err(fault) => {
                self.stage = Stage::Failed;
                Err(fault)
            }
        }
    }

    /// Appends the lines of all messages that are there.
    pub fn drain(&mut self, out: &mut Bytes) -> Result<(), OutOfMemory>
        ensures history { (taken front : List ℕ) → Stands self.old taken (front ++ out.old) → OnOk result (Stands self.new taken (front ++ out.new)) }
        ensures awaits { OnOk result (Awaits self.new) }
        ensures count { OnOk result (self.new.place + length self.new.rest ≡ self.old.place + length self.old.rest) }
    {
        'messages: while self.next(out)? {}
        Ok(())
    }

    /// Appends the line of the rest of a stream that has ended, where there is a rest.
    fn show_rest(&self, out: &mut Bytes) -> Result<(), OutOfMemory>
        requires { Awaits self.now }
        ensures { (taken front : List ℕ) → Stands self.now taken (front ++ out.old) → OnOk result (ShowsBgp taken (front ++ out.new)) }
    {
        match self.stage {
            Stage::Open => print_rest(out, self.feed.rest().len()),
            Stage::Over => Ok(()),
            Stage::Failed => Err(OutOfMemory),
        }
    }

    /// Appends the last lines of a stream that has ended.
    pub fn finish(&mut self, out: &mut Bytes) -> Result<(), OutOfMemory>
        ensures { (taken front : List ℕ) → Stands self.old taken (front ++ out.old) → OnOk result (ShowsBgp taken (front ++ out.new)) }
    {
        self.drain(out)?;
        self.show_rest(out)
    }
}

/// The lines that show a stream of BGP messages (RFC 4271, section 4), and where it is refused.
///
/// ```text
/// open as=A hold=H id=D capabilities=L       L: CODE:HEX, joined by commas, or - for none
/// keepalive
/// notification C S HEX
/// update                                     and for each attribute:
/// attribute FF NAME HEX                      FF: the flags
/// rest N                                     N bytes that are no whole message, at the end
/// refused CODE SUBCODE PLACE                 PLACE: counted from the stream's first byte, at the end
/// ```
///
/// HEX has two digits a byte in lower case, and is `-` for no bytes. An attribute without a name is shown by its number. An
/// update that is refused has the refused line in place of its own.
pub fn bgp_lines(alloc: Global, bytes: &[u8]) -> Result<Bytes, OutOfMemory>
    ensures { IfOk result (ShowsBgp bytes.now) }
{
    let mut lines = StreamLines::new(alloc);
    lines.push(bytes)?;
    let mut out = Bytes::new(alloc);
    lines.finish(&mut out)?;
    Ok(out)
}
