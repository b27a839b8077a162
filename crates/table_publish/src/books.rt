//! The list of a window's entries, in a book. The book is in the proofs alone, but for the number of entries.

ghost use Rattle.std.specs.Prelude.{◌≡◌, ◌+◌, ◌++◌, ◌∷◌, [], true, length, IfOk, OnErr};
ghost use Rattle.table_publish.specs.Entries.{begun, LacksMark};
ghost use Rattle.table_publish.specs.Pages.{head_of};

use crate::entries::{Entry, Opened};
use logbook::{Gain, Offer, Opening, Plain, Play, Rule, Seen, Start, Word};
use path_selection::Change;
use wire_base::{List, OutOfMemory};

/// The rule of the book.
pub struct Law;

impl Rule<Entry, u64> for Law {
    ghost use Rattle.std.specs.Prelude.{[]};
    ghost use base.Fml.{ftrue};
    ghost use Rattle.table_publish.specs.Pages.{IsKept};

    ghost holds = { λ cells log. IsKept cells log };

    ghost first = { [] };

    ghost hinted = { λ n log. Unit {0} };

    ghost shows = { λ log. [] };

    ghost keeps = { λ names log. ftrue };

    ghost moves = { λ ask before after answer. Unit {0} };
}

/// Callers trade nothing.
pub struct Nothing;

impl Gain<Entry, u64> for Nothing {
    ghost use base.Fml.{ftrue};

    ghost after = { λ names about answer. ftrue };
}

/// The step that adds an entry.
pub struct Adds;

impl Play<Entry, u64> for Adds {
    ghost use Rattle.table_publish.specs.Pages.{Added};

    ghost then = { Added };
}

impl Plain<List<Change>, Entry, u64> for Adds {
    ghost use Rattle.std.specs.Prelude.{None};
    ghost use Rattle.table_publish.specs.declared.entries.Entry.{Entry};

    ghost ask = { λ changes. Entry.Changes changes };

    ghost state = { λ changes. None };
}

/// The step that adds the mark.
pub struct Closes;

impl Plain<bool, Entry, u64> for Closes {
    ghost use Rattle.std.specs.Prelude.{None};
    ghost use Rattle.table_publish.specs.declared.entries.Entry.{Entry};

    ghost ask = { λ _. Entry.Mark };

    ghost state = { λ _. None };
}

/// The first list of a window.
pub struct Begins;

impl Opening<Opened, Entry> for Begins {
    ghost use Rattle.std.specs.Prelude.{[], ◌∷◌};
    ghost use Rattle.table_publish.specs.declared.entries.Entry.{Entry};

    ghost log = { λ count opened. Entry.Open opened ∷ [] };
}

/// A beginning of a window's list that was seen. It has no bytes.
pub type WindowSeen = Seen<Entry, u64, Law>;

/// The whole list, and the right to add to it.
#[derive(Drop)]
pub struct Head {
    word: Word<Entry, u64, Law>,
    entries: u64,
    pub seen: WindowSeen,
    ghost head_is: { word ≡ head_of seen.book },
    ghost entries_is: { length seen.log ≡ entries + 1 },
    ghost begins: { begun seen.log ≡ true },
    ghost lacks: { LacksMark seen.log },
}

impl Head {
    /// The list of the opening alone, in a book of its own.
    pub fn new(opened: &Opened) -> Head
        ensures { result.seen.log ≡ Entry.Open opened.now ∷ [] }
    {
        let (seen, mut pens) = Seen::open_row::<Opened, Begins>(opened, Start::alone(), 1);
        let mut pen = pens.take();
        Head {
            word: Word::tracked(0, &mut pen),
            entries: 0,
            seen,
        }
    }

    /// Adds the changes of a publication. After want of memory the list is unchanged.
    pub fn add(&mut self, changes: &List<Change>) -> Result<(), OutOfMemory>
        ensures book { self.new.seen.book ≡ self.old.seen.book }
        ensures list { IfOk result (λ _. self.new.seen.log ≡ self.old.seen.log ++ Entry.Changes changes.now ∷ []) }
        ensures err { OnErr result (self.new.seen ≡ self.old.seen) }
    {
        let Some(next) = self.entries.checked_add(1) else {
            return Err(OutOfMemory);
        };
        let mut seen = self.seen.again();
        let mut offer: Offer<Entry, u64, Law, Nothing> = seen.plain::<Nothing, List<Change>, Adds>(
            changes,
        );
        let mut pen = seen.no_pen();
        let found = self
            .word
            .compare_exchange::<Adds, Nothing>(self.entries, next, &mut seen, &mut offer, &mut pen);
        if found != self.entries {
            return Err(OutOfMemory);
        }
        self.seen = seen;
        self.entries = next;
        Ok(())
    }

    /// Adds the mark, behind which no entry comes.
    pub fn seal(self) -> Result<WindowSeen, OutOfMemory>
        ensures { IfOk result (λ s. (s.book ≡ self.seen.book) × (s.log ≡ self.seen.log ++ Entry.Mark ∷ [])) }
    {
        let Self {
            word,
            entries,
            mut seen,
        } = self;
        let Some(next) = entries.checked_add(1) else {
            return Err(OutOfMemory);
        };
        let mut offer: Offer<Entry, u64, Law, Nothing> = seen.plain::<Nothing, bool, Closes>(&true);
        let mut pen = seen.no_pen();
        let found = word.compare_exchange::<Adds, Nothing>(
            entries, next, &mut seen, &mut offer, &mut pen,
        );
        if found != entries {
            return Err(OutOfMemory);
        }
        Ok(seen)
    }
}
