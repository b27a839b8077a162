//! A window that is open: its publisher, two seats, and what was told.

ghost use Rattle.std.specs.Prelude.{◌≡◌, All, IfSome};

use crate::faults::Fault;
use crate::gates::Gate;
use crate::looks::{look_beside, look_once};
use crate::races::race;
use crate::sums::{sum_by_seat, sums_by_seats};
use crate::turns::{Lists, take_turns};
use crate::words::Question;
use path_selection::{Change, Found, Table};
use std::alloc::Global;
use std::marker::Model;
use std::sync::Wait;
use std::thread::Threads;
use table_publish::{Publisher, Seat, Told, Window, close};
use wire_base::{List, OutOfMemory, Spi};

/// One of two seats.
#[derive(Clone, Copy)]
pub(crate) enum Place {
    First,
    Second,
}

/// A window that is open. All of it is of one window.
pub(crate) struct OpenWindow {
    publisher: Publisher,
    version: u64,
    first: Seat,
    second: Seat,
    // What was told and not learned.
    tolds: List<Told>,
}

impl Model for OpenWindow {
    ghost use Rattle.std.specs.Prelude.{◌≡◌, All};
    ghost use Rattle.table_publish.specs.Views.{PublisherView};

    ghost Value = { PublisherView };

    ghost view = { λ w. w.publisher };

    ghost invariant = { λ w. (w.first.window ≡ w.publisher.window) × (w.second.window ≡ w.publisher.window) × All (λ told. told.window ≡ w.publisher.window) w.tolds };
}

/// Takes a seat out.
fn next_seat(publisher: &Publisher, seats: &mut List<Seat>) -> Option<Seat>
    requires { All (λ seat. seat.window ≡ publisher.now.window) seats.old }
    ensures left { All (λ seat. seat.window ≡ publisher.now.window) seats.new }
    ensures taken { IfSome result (λ seat. seat.window ≡ publisher.now.window) }
{
    seats.pop()
}

/// Takes out what was told last.
fn last_told(publisher: &Publisher, tolds: &mut List<Told>) -> Option<Told>
    requires { All (λ told. told.window ≡ publisher.now.window) tolds.old }
    ensures left { All (λ told. told.window ≡ publisher.now.window) tolds.new }
    ensures taken { IfSome result (λ told. told.window ≡ publisher.now.window) }
{
    tolds.pop()
}

/// Opens a window with two seats. None where it gives fewer; it is then closed.
pub(crate) fn open_window<R: Wait>(
    rt: &R,
    alloc: Global,
    table: &Table,
    version: u64,
) -> Result<Option<OpenWindow>, OutOfMemory> {
    let (publisher, mut seats) = Window::begin(rt, alloc, table, version, 2)?;
    let second = next_seat(&publisher, &mut seats);
    let first = next_seat(&publisher, &mut seats);
    let (Some(first), Some(second)) = (first, second) else {
        close(rt, publisher, List::new(alloc))?;
        return Ok(None);
    };
    Ok(Some(OpenWindow {
        publisher,
        version,
        first,
        second,
        tolds: List::new(alloc),
    }))
}

impl OpenWindow {
    /// Publishes the changes, and keeps what is told: its version.
    pub fn publish<R: Wait>(&mut self, rt: &R, changes: List<Change>) -> Result<u64, OutOfMemory> {
        let told = self.publisher.publish(rt, changes)?;
        self.version = told.version();
        self.tolds.push(told)?;
        Ok(self.version)
    }

    /// The seat learns what was told last; false where nothing waits.
    pub fn learn(&mut self, place: Place) -> bool {
        let Some(told) = last_told(&self.publisher, &mut self.tolds) else {
            return false;
        };
        match place {
            Place::First => self.first.learn(told),
            Place::Second => self.second.learn(told),
        }
        true
    }

    /// Drops what was told.
    pub fn forget(&mut self) {
        self.tolds.clear();
    }

    /// What a seat finds.
    pub fn look(&mut self, asked: Question) -> Result<Found, Fault> {
        match asked.place {
            Place::First => look_once(&mut self.first, asked.spi, asked.si),
            Place::Second => look_once(&mut self.second, asked.spi, asked.si),
        }
    }

    /// What a seat finds in a thread of its own.
    pub fn look_beside<R: Threads + Sync>(
        &mut self,
        rt: &R,
        asked: Question,
    ) -> Result<Found, Fault> {
        match asked.place {
            Place::First => look_beside(rt, &mut self.first, asked.spi, asked.si),
            Place::Second => look_beside(rt, &mut self.second, asked.spi, asked.si),
        }
    }

    /// The next lists on a path.
    fn next_lists(&self, spi: Spi, count: u64) -> Lists {
        Lists {
            spi,
            from: self.version,
            count,
        }
    }

    /// What a seat finds in turn with so many publications.
    pub fn take_turns<R: Threads + Wait + Sync>(
        &mut self,
        rt: &R,
        alloc: Global,
        place: Place,
        spi: Spi,
        count: u64,
    ) -> Result<List<Found>, Fault> {
        let lists = self.next_lists(spi, count);
        self.version = self.version.saturating_add(count);
        let gate = Gate::new();
        match place {
            Place::First => {
                take_turns(
                    rt,
                    alloc,
                    &gate,
                    &mut self.publisher,
                    &mut self.first,
                    lists,
                )
            }
            Place::Second => {
                take_turns(
                    rt,
                    alloc,
                    &gate,
                    &mut self.publisher,
                    &mut self.second,
                    lists,
                )
            }
        }
    }

    /// The versions that both seats find at last, beside so many publications.
    pub fn race<R: Threads + Wait + Sync>(
        &mut self,
        rt: &R,
        alloc: Global,
        spi: Spi,
        count: u64,
    ) -> Result<(u64, u64), Fault> {
        let lists = self.next_lists(spi, count);
        self.version = self.version.saturating_add(count);
        race(
            rt,
            alloc,
            &mut self.publisher,
            &mut self.first,
            &mut self.second,
            lists,
        )
    }

    /// The sum of so many lookups of the first seat.
    pub fn sum(&mut self, count: u64) -> Result<u64, Fault> {
        sum_by_seat(&mut self.first, count)
    }

    /// The sums of so many lookups of each seat, in a thread of its own.
    pub fn sums<R: Threads + Sync>(&mut self, rt: &R, count: u64) -> Result<(u64, u64), Fault> {
        sums_by_seats(rt, &mut self.first, &mut self.second, count)
    }

    /// Closes the window: its last table and version.
    pub fn close<R: Wait>(self, rt: &R, alloc: Global) -> Result<(Table, u64), OutOfMemory> {
        let OpenWindow {
            publisher,
            version: _version,
            first,
            second,
            tolds: _tolds,
        } = self;
        let (seats, kept) = seats_of(alloc, &publisher, first, second);
        let closed = close(rt, publisher, seats)?;
        kept?;
        Ok(closed)
    }

    /// Closes the window, whatever it holds.
    pub fn leave<R: Wait>(self, rt: &R, alloc: Global) {
        drop(self.close(rt, alloc));
    }
}

/// The seats in a list. A seat for which there is no memory is not in it.
fn seats_of(
    alloc: Global,
    publisher: &Publisher,
    first: Seat,
    second: Seat,
) -> (List<Seat>, Result<(), OutOfMemory>)
    requires first { first.window ≡ publisher.now.window }
    requires second { second.window ≡ publisher.now.window }
    ensures { All (λ seat. seat.window ≡ publisher.now.window) result.0 }
{
    let mut seats = List::new(alloc);
    if let Err(fault) = seats.push(first) {
        return (seats, Err(fault));
    }
    let pushed = seats.push(second);
    (seats, pushed)
}
