//! A window is begun, and closed.

ghost use Rattle.std.specs.Prelude.{◌≡◌, ◌≤◌, ◌++◌, ◌∷◌, false, [], drop, length, All, IfOk};
ghost use Rattle.left_right.specs.Sides.{view};
ghost use Rattle.table_publish.specs.Entries.{published_of};
ghost use Rattle.table_publish.specs.Publications.{Extends, opened_on, table_of, version_of};
ghost use Rattle.table_publish.specs.Rules.{Holds, Stands};
ghost use Rattle.table_publish.specs.Settling.{HasSeen};
ghost use Rattle.table_publish.specs.Views.{fresh_seat};

use crate::books::{Head, WindowSeen};
use crate::copies::copy_table;
use crate::entries::{Opened, Window};
use crate::publishers::{Publisher, WindowWriter, told_of};
use crate::rules::Looks;
use crate::seats::Seat;
use crate::stores::{Operation, Store};
use left_right::writer::Writer;
use path_selection::Table;
use std::alloc::{AllocError, Global};
use std::sync::Wait;
use wire_base::{List, OutOfMemory};

/// Opens the window.
fn open_window<R: Wait>(mut writer: WindowWriter, rt: &R) -> (WindowWriter, Result<(), AllocError>)
    requires stands { Stands writer.desk.shown.value }
    requires none { drop writer.behind writer.log.items ≡ [] }
    ensures { IfOk result.1 (λ _. Holds (view result.0.desk.place) result.0.desk.shown.value (drop result.0.behind result.0.log.items) writer.desk.shown.value.seen) }
{
    if writer.append(Operation::Open).is_err() {
        return (writer, Err(AllocError));
    }
    writer.publish_as::<Looks, R>(rt)
}

/// Makes as many seats, or fewer where a reader was refused.
fn seats_of(
    alloc: Global,
    writer: &mut WindowWriter,
    count: usize,
    seen: &WindowSeen,
) -> Result<List<Seat>, OutOfMemory>
    requires { Holds (view writer.old.desk.place) writer.old.desk.shown.value (drop writer.old.behind writer.old.log.items) seen.now }
    ensures held { Holds (view writer.new.desk.place) writer.new.desk.shown.value (drop writer.new.behind writer.new.log.items) seen.now }
    ensures count { IfOk result (λ seats. length seats ≤ count) }
    ensures fresh { IfOk result (λ seats. All (λ seat. seat ≡ fresh_seat seen.now.book (published_of seen.now.log)) seats) }
{
    let mut seats = List::new(alloc);
    for _ in 0..count {
        let Ok(told) = told_of(writer, seen) else {
            return Ok(seats);
        };
        seats.push(Seat::new(told))?;
    }
    Ok(seats)
}

/// The writer of a window over two copies of a table that stand for the list.
fn writer_of(
    alloc: Global,
    first: Store,
    second: Store,
    readers: usize,
) -> Result<WindowWriter, OutOfMemory>
    requires stands { Stands first }
    requires alike { (second.table ≡ first.table) × (second.version ≡ first.version) × (second.seen ≡ first.seen) }
    requires readers { (1 ≤ readers) × (readers ≤ 80) }
    ensures { IfOk result (λ w. (w.desk.shown.value ≡ first) × (drop w.behind w.log.items ≡ [])) }
{
    Ok(Writer::new(alloc, first, second, readers)?)
}

impl Window {
    /// Begins a window on a table of this version, with as many seats or fewer, maybe none. There is room for 64 values
    /// of `Told` that no seat has learned and nobody has dropped.
    pub fn begin<R: Wait>(
        rt: &R,
        alloc: Global,
        table: &Table,
        version: u64,
        seats: usize,
    ) -> Result<(Publisher, List<Seat>), OutOfMemory>
        requires { (1 ≤ seats) × (seats ≤ 16) }
        ensures publisher { IfOk result (λ made. (made.0.published ≡ opened_on table.now version) × (made.0.failed ≡ false)) }
        ensures count { IfOk result (λ made. length made.1 ≤ seats) }
        ensures seats { IfOk result (λ made. All (λ seat. seat ≡ fresh_seat made.0.window made.0.published) made.1) }
    {
        let second = copy_table(alloc, table)?;
        let opened = Opened {
            table: copy_table(alloc, table)?,
            version,
        };
        let head = Head::new(&opened);
        let first = Store::new(alloc, opened.table, version, head.seen.again());
        let second = Store::new(alloc, second, version, head.seen.again());
        let writer = writer_of(alloc, first, second, seats + 64)?;
        let (mut writer, opened) = open_window(writer, rt);
        if opened.is_err() {
            drop(writer.take(rt));
            return Err(OutOfMemory);
        }
        match seats_of(alloc, &mut writer, seats, &head.seen) {
            Ok(made) => {
                let publisher = Publisher {
                    writer,
                    head,
                    failed: false,
                };
                Ok((publisher, made))
            }
            Err(fault) => {
                drop(writer.take(rt));
                Err(fault)
            }
        }
    }
}

/// Shows that what a seat has seen is a beginning of the list.
fn settle(sealed: &WindowSeen, seat: &Seat)
    requires { seat.now.window ≡ sealed.now.book }
    ensures { HasSeen sealed.now.log seat.now }
{
    let mut both = sealed.again();
    both.learn(&seat.seen);
}

fn settle_each(sealed: &WindowSeen, seats: &[Seat])
    requires { All (λ seat. seat.window ≡ sealed.now.book) seats.now }
    ensures { All (HasSeen sealed.now.log) seats.now }
{
    for seat in seats {
        settle(sealed, seat);
    }
}

/// Closes the window: the table after all published lists of changes, and its version. It may wait for lookups under way.
/// After want of memory the window is gone.
pub fn close<R: Wait>(
    rt: &R,
    publisher: Publisher,
    seats: List<Seat>,
) -> Result<(Table, u64), OutOfMemory>
    requires { All (λ seat. seat.window ≡ publisher.window) seats }
    ensures table { IfOk result (λ last. (last.0 ≡ table_of publisher.published) × (last.1 ≡ version_of publisher.published)) }
    ensures seats { IfOk result (λ _. All (λ seat. Extends publisher.published seat.seen) seats) }
    ensures lasts { IfOk result (λ _. publisher.failed ≡ false) }
{
    let Publisher {
        writer,
        head,
        failed,
    } = publisher;
    let last = Box::into_inner(writer.take(rt));
    if failed {
        return Err(OutOfMemory);
    }
    let sealed = head.seal()?;
    settle_each(&sealed, seats.as_slice());
    let Store { table, version, .. } = last;
    Ok((table, version))
}
