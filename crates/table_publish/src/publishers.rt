//! The publisher's end of a window.

ghost use Rattle.std.specs.Prelude.{◌≡◌, ◌⊎◌, ◌++◌, ◌∷◌, true, false, [], drop, IfOk, OnErr};
ghost use Rattle.left_right.specs.Sides.{view};
ghost use Rattle.table_publish.specs.Entries.{published_of};
ghost use Rattle.table_publish.specs.Publications.{longer};
ghost use Rattle.table_publish.specs.Rules.{Holds};

use crate::books::{Head, WindowSeen};
use crate::entries::Entry;
use crate::rules::{Kept, Looks, Notes, View};
use crate::stores::{Operation, Store};
use crate::tolds::Told;
use core::mem::replace_with;
use left_right::writer::Writer;
use path_selection::Change;
use std::alloc::AllocError;
use std::marker::Model;
use std::sync::Wait;
use wire_base::{List, OutOfMemory};

pub type WindowWriter = Writer<Store, Operation, View, Kept>;

/// Publishes in a window. It is not `Drop`: it ends by `close`.
pub struct Publisher {
    pub(crate) writer: WindowWriter,
    pub(crate) head: Head,
    pub(crate) failed: bool,
}

impl Model for Publisher {
    ghost use Rattle.std.specs.Prelude.{◌≡◌, false, drop};
    ghost use Rattle.left_right.specs.Sides.{view as view_of};
    ghost use Rattle.table_publish.specs.Entries.{published_of};
    ghost use Rattle.table_publish.specs.Rules.{Holds};
    ghost use Rattle.table_publish.specs.Views.{PublisherView};

    ghost Value = { PublisherView };

    ghost view = { λ p. record { window = p.head.seen.book; published = published_of p.head.seen.log; failed = p.failed } };

    ghost invariant = { λ p. p.failed ≡ false → Holds (view_of p.writer.desk.place) p.writer.desk.shown.value (drop p.writer.behind p.writer.log.items) p.head.seen };
}

/// Shows the changes to readers. The list ends with them.
fn send<R: Wait>(
    writer: WindowWriter,
    asked: (&R, List<Change>, WindowSeen),
) -> (WindowWriter, Result<(), AllocError>)
    requires held { Holds (view writer.desk.place) writer.desk.shown.value (drop writer.behind writer.log.items) writer.desk.shown.value.seen }
    requires list { (asked.2.book ≡ writer.desk.shown.value.seen.book) × (asked.2.log ≡ writer.desk.shown.value.seen.log ++ Entry.Changes asked.1 ∷ []) }
    ensures { IfOk result.1 (λ _. Holds (view result.0.desk.place) result.0.desk.shown.value (drop result.0.behind result.0.log.items) asked.entry.2) }
{
    let mut writer = writer;
    let (rt, changes, seen) = asked;
    if writer.append(Operation::Enter(changes, seen)).is_err() {
        return (writer, Err(AllocError));
    }
    writer.publish_as::<Looks, R>(rt)
}

/// Makes a reader and tells it of the list. Want of memory where no reader was given.
pub fn told_of(writer: &mut WindowWriter, seen: &WindowSeen) -> Result<Told, OutOfMemory>
    requires { Holds (view writer.old.desk.place) writer.old.desk.shown.value (drop writer.old.behind writer.old.log.items) seen.now }
    ensures held { Holds (view writer.new.desk.place) writer.new.desk.shown.value (drop writer.new.behind writer.new.log.items) seen.now }
    ensures told { IfOk result (λ told. told ≡ record { window = seen.now.book; published = published_of seen.now.log }) }
{
    let version = writer.published().version;
    let mut reader = writer.factory().reader()?;
    reader.learn::<Notes>(writer.tell::<Notes>());
    Ok(Told::new(version, reader, seen.again()))
}

/// Shows the changes to readers, and tells of the list, which ends with them.
fn show<R: Wait>(
    rt: &R,
    writer: &mut WindowWriter,
    changes: List<Change>,
    seen: &WindowSeen,
) -> Result<Told, OutOfMemory>
    requires held { Holds (view writer.old.desk.place) writer.old.desk.shown.value (drop writer.old.behind writer.old.log.items) writer.old.desk.shown.value.seen }
    requires list { (seen.now.book ≡ writer.old.desk.shown.value.seen.book) × (seen.now.log ≡ writer.old.desk.shown.value.seen.log ++ Entry.Changes changes ∷ []) }
    ensures held { IfOk result (λ _. Holds (view writer.new.desk.place) writer.new.desk.shown.value (drop writer.new.behind writer.new.log.items) seen.now) }
    ensures told { IfOk result (λ told. told ≡ record { window = seen.now.book; published = published_of seen.now.log }) }
{
    replace_with(writer, (rt, changes, seen.again()), send::<R>)?;
    told_of(writer, seen)
}

impl Publisher {
    /// Publishes the changes, all at once, as one more version. It may wait for lookups under way. After want of memory
    /// they are published whole or not at all, and each later call that publishes or closes answers it too. Where the version
    /// is 2^64 - 1 it answers want of memory.
    pub fn publish<R: Wait>(&mut self, rt: &R, changes: List<Change>) -> Result<Told, OutOfMemory>
        ensures window { self.new.window ≡ self.old.window }
        ensures published { IfOk result (λ told. (self.new.published ≡ longer self.old.published changes) × (told ≡ record { window = self.new.window; published = self.new.published })) }
        ensures lasts { IfOk result (λ _. (self.old.failed ≡ false) × (self.new.failed ≡ false)) }
        ensures err { OnErr result ((self.new.failed ≡ true) × ((self.new.published ≡ self.old.published) ⊎ (self.new.published ≡ longer self.old.published changes))) }
    {
        if self.failed {
            return Err(OutOfMemory);
        }
        self.failed = true;
        self.head.add(&changes)?;
        let told = show(rt, &mut self.writer, changes, &self.head.seen)?;
        self.failed = false;
        Ok(told)
    }
}
