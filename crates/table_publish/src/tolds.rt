//! What a publication tells.

ghost use Rattle.std.specs.Prelude.{◌≡◌, true, MatchBool, MatchOption};
ghost use Rattle.left_right.specs.Sides.{view};
ghost use Rattle.path_selection.specs.Answers.{IsAnswer};
ghost use Rattle.table_publish.specs.Entries.{begun, published_of, LacksMark};
ghost use Rattle.table_publish.specs.Looks.{IsSight};
ghost use Rattle.table_publish.specs.Publications.{Extends, table_of, version_of};
ghost use Rattle.table_publish.specs.Rules.{Tells};

use crate::books::WindowSeen;
use crate::rules::{Kept, Looks, View};
use crate::stores::Store;
use core::mem::replace_with;
use left_right::reader::Reader;
use path_selection::Answer;
use std::marker::Model;
use wire_base::Spi;

pub type WindowReader = Reader<Store, View, Kept>;

/// Tells of a published version, and of all before it. It serves one `learn`.
#[derive(Drop)]
pub struct Told {
    version: u64,
    // It has seen just the list.
    reader: WindowReader,
    seen: WindowSeen,
}

impl Model for Told {
    ghost use Rattle.left_right.specs.Sides.{view as view_of};
    ghost use Rattle.table_publish.specs.Entries.{published_of};
    ghost use Rattle.table_publish.specs.Rules.{Tells};
    ghost use Rattle.table_publish.specs.Views.{ToldView};

    ghost Value = { ToldView };

    ghost view = { λ t. record { window = t.seen.book; published = published_of t.seen.log } };

    ghost invariant = { λ t. Tells (view_of t.reader.place) t.seen t.version };
}

/// What a look finds, and the list that made it.
#[derive(Drop)]
pub struct Sight {
    pub version: u64,
    pub answer: Answer,
    pub seen: WindowSeen,
}

/// Looks up in the table that is published at this moment. None where the reader was not let in.
fn look_through(reader: WindowReader, asked: (Spi, u8)) -> (WindowReader, Option<Sight>)
    requires { (view reader.place).opened ≡ true }
    ensures { MatchOption result.1 (view result.0.place ≡ view reader.place) (IsSight (view reader.place) (view result.0.place) asked.0 asked.1) }
{
    let (spi, si) = asked;
    match reader.enter_as::<Looks>() {
        Err(reader) => (reader, None),
        Ok(reading) => {
            let store = reading.get();
            let sight = Sight {
                version: store.version,
                answer: store.table.answer(spi, si),
                seen: store.seen.again(),
            };
            (reading.leave(), Some(sight))
        }
    }
}

impl Told {
    pub(crate) fn new(version: u64, reader: WindowReader, seen: WindowSeen) -> Told
        requires { Tells (view reader.place) seen version }
        ensures { result ≡ record { window = seen.book; published = published_of seen.log } }
    {
        Told {
            version,
            reader,
            seen,
        }
    }

    /// The version that was published.
    pub fn version(&self) -> u64
        ensures { result ≡ version_of self.now.published }
    {
        self.version
    }

    /// The list that it tells of.
    pub(crate) fn list(&self) -> WindowSeen
        ensures book { result.book ≡ self.now.window }
        ensures list { published_of result.log ≡ self.now.published }
        ensures begins { begun result.log ≡ true }
        ensures lacks { LacksMark result.log }
    {
        self.seen.again()
    }

    /// Whether the other one tells of a newer version. The list of the newer one begins with that of the older one.
    pub(crate) fn is_older(&self, other: &Told) -> bool
        requires { other.now.window ≡ self.now.window }
        ensures { MatchBool result (Extends other.now.published self.now.published) (Extends self.now.published other.now.published) }
    {
        let mut both = self.seen.again();
        both.learn(&other.seen);
        self.version < other.version
    }

    /// Looks up in the table that is published at this moment, and tells of its version from then on. None where the
    /// reader was not let in; it then tells what it told.
    pub(crate) fn look(&mut self, spi: Spi, si: u8) -> Option<Answer>
        ensures { MatchOption result (self.new ≡ self.old) (λ answer. (self.new.window ≡ self.old.window) × Extends self.new.published self.old.published × IsAnswer (table_of self.new.published) spi si answer) }
    {
        let Some(sight) = replace_with(&mut self.reader, (spi, si), look_through) else {
            return None;
        };
        let answer = sight.answer;
        self.version = sight.version;
        self.seen = sight.seen;
        Some(answer)
    }
}
