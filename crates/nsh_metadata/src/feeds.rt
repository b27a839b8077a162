//! A header that comes in pieces.

ghost use Rattle.std.specs.Prelude.{◌≡◌, ℕ, List, [], ◌++◌, length, Some, None};
ghost use Rattle.nsh_headers.specs.declared.faults.NshFault.{NshFault};
ghost use Rattle.nsh_metadata.specs.declared.feeds.NshStep.{NshStep};
ghost use Rattle.nsh_metadata.specs.Header.{Header};
ghost use Rattle.nsh_metadata.specs.Kept.{waiting};
ghost use Rattle.nsh_metadata.specs.Feed.{Answers, kept_after, Stands, Next};

use crate::decoding::decode_nsh;
use crate::headers::Nsh;
use nsh_headers::NshFault;
use std::marker::Model;

/// The most bytes that a header has: 63 words.
const LARGEST: usize = 252;

/// What a feed answers to a piece.
#[derive(Debug, Drop)]
pub enum NshStep {
    /// All of the piece was taken, and the header is not whole.
    More,
    /// The header, and how many bytes of the piece it took. The others are not taken.
    Whole(Nsh, usize),
    /// The bytes are refused. Never `Short`.
    Fault(NshFault),
}

/// Reads headers from bytes that come in pieces of any size. It takes no memory.
#[derive(Debug, Drop)]
pub struct NshFeed {
    held: [u8; LARGEST],
    len: usize,
    stop: Option<NshFault>,
}

impl Model for NshFeed {
    ghost use Rattle.std.specs.Prelude.{◌≤◌, take};
    ghost use Rattle.nsh_metadata.specs.Kept.{Kept};
    ghost use Rattle.nsh_metadata.specs.Refusal.{Held};

    ghost Value = { Kept };

    ghost view = { λ f. record { rest = take f.len f.held; stop = f.stop } };

    ghost invariant = { λ f. (f.len ≤ 252) × Held (take f.len f.held) };
}

impl NshFeed {
    /// A feed that has taken nothing.
    pub fn new() -> NshFeed
        ensures value { result ≡ waiting [] }
        ensures history { Stands result [] [] }
    {
        NshFeed {
            held: [0; LARGEST],
            len: 0,
            stop: None,
        }
    }

    fn take_piece(&mut self, piece: &[u8]) -> NshStep
        requires { self.old.stop ≡ None }
        ensures answer { Answers (self.old.rest ++ piece.now) (length self.old.rest) result }
        ensures kept { self.new ≡ kept_after (self.old.rest ++ piece.now) result }
    {
        let before = self.len;
        let more = piece.len().min(LARGEST - before);
        let total = before + more;
        self.held[before..total].copy_from_slice(piece.split_at(more).0);
        match decode_nsh(self.held.split_at(total).0) {
            Ok((nsh, size)) => {
                self.len = 0;
                NshStep::Whole(nsh, size - before)
            }
            Err(fault) => match fault {
                NshFault::Short(_) => {
                    self.len = total;
                    NshStep::More
                }
                _ => {
                    self.len = 0;
                    self.stop = Some(fault);
                    NshStep::Fault(fault)
                }
            },
        }
    }

    /// Takes the next piece.
    ///
    /// `Whole` comes with the piece that completes the header, and the feed is then empty: the bytes of the
    /// piece behind those that were taken are pushed again. A refusal comes as soon as its bytes are there,
    /// in the order of `decode_nsh`, and every later push answers it again.
    pub fn push(&mut self, piece: &[u8]) -> NshStep
        ensures answer { self.old.stop ≡ None → Answers (self.old.rest ++ piece.now) (length self.old.rest) result }
        ensures only { self.old.stop ≡ None → (other : NshStep)
            → Answers (self.old.rest ++ piece.now) (length self.old.rest) other → result ≡ other }
        ensures kept { self.old.stop ≡ None → self.new ≡ kept_after (self.old.rest ++ piece.now) result }
        ensures again { (f : NshFault) → self.old.stop ≡ Some f → (result ≡ NshStep.Fault f) × (self.new ≡ self.old) }
        ensures history { (taken : List ℕ) (given : List Header) → Stands self.old taken given
            → Next self.new taken piece.now given result }
    {
        match self.stop {
            Some(fault) => NshStep::Fault(fault),
            None => self.take_piece(piece),
        }
    }
}
