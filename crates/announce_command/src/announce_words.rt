//! The words of `announce`.

ghost use Rattle.std.specs.Prelude.{◌≡◌, MatchOption};
ghost use Rattle.announce_command.specs.AnnounceCommand.{Announce, IsAnnounce};
ghost use Rattle.announce_command.specs.AnnounceSteps.{announce_of};

use commands::Words;
use text_words::read_number;

/// What the words of `announce` say: the peer's number, and the names of the three files.
#[derive(Clone, Copy)]
pub(crate) struct AnnounceWords<'a> {
    pub(crate) setup: &'a str,
    pub(crate) peer: u16,
    pub(crate) routes: &'a str,
    pub(crate) made: &'a str,
}

/// Reads `announce SETUP PEER ROUTES MADE`.
pub(crate) fn announce_words(words: &Words) -> Option<AnnounceWords<'_>>
    ensures { MatchOption result ((said : Announce) → IsAnnounce words.now said → ⊥) (λ said. IsAnnounce words.now (announce_of said)) }
{
    if words.len() != 5 {
        return None;
    }
    if words.word(0) != "announce" {
        return None;
    }
    let Some(peer) = read_number(words.word(2).as_bytes(), 1, 65_535) else {
        return None;
    };
    let (setup, routes, made) = (words.word(1), words.word(3), words.word(4));
    if setup.is_empty() {
        return None;
    }
    if routes.is_empty() {
        return None;
    }
    if made.is_empty() {
        return None;
    }
    if made == setup {
        return None;
    }
    if made == routes {
        return None;
    }
    Some(AnnounceWords {
        setup,
        peer: peer as u16,
        routes,
        made,
    })
}
